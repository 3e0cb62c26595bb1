// Layers in any order: how the rows of a plan change where layers are rearranged or a layer's list is cut. Specifications and proofs only; no code.
#![tactic(auto)]
