// Search: the traversal of a backtracking search over any state, its rows, its names and its pages. Specifications and proofs, and no code.
#![tactic(auto)]
