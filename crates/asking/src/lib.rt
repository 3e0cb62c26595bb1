// What the commands `apart`, `nearest` and `pairs` say of a plan text: defined in specs/. The code is in the crates `asking_code` and
// `asking_runs_code`.
#![tactic(auto)]
