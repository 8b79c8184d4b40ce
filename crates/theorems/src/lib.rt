// Theorems about the resolver as a whole, over the definitions of the crate model: demand 3 (RULES 12.3), a walk as its steps, and the bounds of
// every walk. It has no code: specs/ holds what is stated, proofs/ why it holds.
#![tactic(auto)]
