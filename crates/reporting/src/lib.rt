// The report on a plan text, as bytes: a line for each row and the total, or a refusal (01, "The report"). It is defined in specs/; the code is in the crate
// `reporting_code`.
#![tactic(auto)]

use plan::Cause;

// The report that stands at the start of a buffer: whether it tells a refusal, and how many bytes it has.
#[derive(Clone, Copy)]
pub struct Printout {
    pub told: Result<(), Cause>,
    pub size: usize,
}
