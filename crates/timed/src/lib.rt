// The timed walk of a plan whose rectangles have windows, and its table (02, Q-12). Specifications and proofs only; no code.
#![tactic(auto)]
