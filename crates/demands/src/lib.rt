// Demand 3: what every list of page calls hands out, every whole run, and the crossing report. It is stated in specs/Theorems.antt and proved in proofs/;
// there is no code.
#![tactic(auto)]
