// The sweep order of a plan, and what the order maker answers: defined in specs/. The code is in the crate `sweep_code`.
#![tactic(auto)]
