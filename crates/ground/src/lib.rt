// Ground counted once: the union of rectangles. Specifications and proofs only; no code.
#![tactic(auto)]
