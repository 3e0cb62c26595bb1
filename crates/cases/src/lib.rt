// The cases that 01 marks (P) and those of its report, as one list and one fact that the checker computes, and beside it a round of three clients (Rounds).
// Specifications and proofs only; no code.
#![tactic(auto)]
