// That demands 2 and 3 say something: runs played by computing, and wrong calls of which they are
// false. Specs and proofs, and no code.

#![tactic(auto)]
