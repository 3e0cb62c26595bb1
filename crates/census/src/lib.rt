// Census: how many nodes the search of a guard has at each depth, told by the ends of spans in order; and the trials and rows of a walk by them.
// Specifications and proofs; no code.
#![tactic(auto)]
