// The walk of a plan: the search of the crate `search` over its layers. Specifications and proofs only; no code.
#![tactic(auto)]
