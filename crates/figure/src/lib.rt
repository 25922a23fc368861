// Figure 1 of source document 000, and demand 2: that a desk's calls answer and change it as the
// figure says. Specs and proofs, and no code.

#![tactic(auto)]
