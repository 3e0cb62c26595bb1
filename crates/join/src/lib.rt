// The join of a plan's layers, and its table. Specifications and proofs only; no code.
#![tactic(auto)]
