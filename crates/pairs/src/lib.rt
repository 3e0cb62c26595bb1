// The pair of layers that shows why places name no row of the table (02, Q-11): defined in specs/. The code is in the crate `pairs_code`.
//
// Upright rectangles have a common point exactly where each two of them meet, so two are enough to show that there is none.
#![tactic(auto)]

// Two layers whose rectangles do not meet, from 1.
#[derive(Clone, Copy)]
pub struct Pair {
    pub lower: u32,
    pub higher: u32,
}
