// What the calls of a desk keep: lent bytes as long as they were, and, as laws for the crates above,
// a record sound. Specs and proofs, and no code.

#![tactic(auto)]
