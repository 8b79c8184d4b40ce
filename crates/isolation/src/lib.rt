// What lies outside a handle's part of the tree makes no difference to a confined call (RULES 20): theorems over the definitions of the crate
// model. It has no code: specs/ holds what is stated, proofs/ why it holds.
#![tactic(auto)]
