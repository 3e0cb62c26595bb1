// The crossing report (02: pipes against ducts): the type of its answer. What it answers is defined in specs/; its code is in the crate `crossing_report_code`.
#![tactic(auto)]

use paging::Done;

// What a crossing report has done: what the whole run did, and how many rows fall in each class, 0 to 16.
#[derive(Clone, Copy)]
pub struct CrossingReport {
    pub run: Done,
    pub counts: [u32; 17],
}
