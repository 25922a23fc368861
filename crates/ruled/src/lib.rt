// A schedule's steps are calls of the run of demand 3, so the turn rules hold of what `rounds` plays:
// specs and proofs, and no code.

#![tactic(auto)]
