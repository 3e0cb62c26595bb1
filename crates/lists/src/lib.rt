// Lists: what the crates above say of lists in their contracts, and the laws of it. Specifications and proofs only; no code.
#![tactic(auto)]
