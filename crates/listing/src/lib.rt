// What the commands `classes`, `hours` and `cover` of the program `overlay` say: their lines and outcomes, defined in specs/. The code is in the crates
// `listing_code` and `listing_runs_code`.
#![tactic(auto)]

mod reason;

pub use reason::Reason;

// What is wrong in a windows text, and in which of its lines.
#[derive(Clone, Copy)]
pub struct Fault {
    pub reason: Reason,
    pub line: u32,
}
