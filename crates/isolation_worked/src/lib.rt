// A test, which can be computed, for a part that two tables have in common, and pairs of tables of which the claims of the crate isolation speak
// (RULES 20). It has no code.
#![tactic(auto)]
