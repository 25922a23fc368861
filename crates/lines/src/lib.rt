// What is promised of lines beside the contracts of `schedule` and `printing`: a step has one line, a
// start one line 1, an answer one text. Specs and proofs, and no code.

#![tactic(auto)]
