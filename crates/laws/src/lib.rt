// Laws over the definitions of the crate model that other crates' proofs cite: bytes, bits, strings and parts, components, what
// acceptance implies, entries, mounts and places, and the checks before the walk. It has no code: specs/ holds what laws and contracts
// speak of, proofs/ why it holds.
#![tactic(auto)]
