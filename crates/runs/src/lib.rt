// Demand 3: the turn rules, over every list of calls on a shelf's desks: specs and proofs, and no
// code.

#![tactic(auto)]
