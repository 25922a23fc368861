// What is proved of round books: one list of sheets, stepping, lookups, adding, and the book of a
// run. Specs and proofs, and no code.

#![tactic(auto)]
