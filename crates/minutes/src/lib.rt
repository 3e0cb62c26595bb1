// Minutes: the nodes of a timed guard, told minute by minute. Specifications and proofs; no code.
#![tactic(auto)]
