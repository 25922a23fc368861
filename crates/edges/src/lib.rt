// No code: document 01's examples at the edges, those marked (P), with what two of them say of every desk, and that its slips are ruled
// out, proved of the definitions (specs/ and proofs/).

#![tactic(auto)]
