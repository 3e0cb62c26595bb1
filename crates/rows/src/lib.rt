// Rows: what lent cells name in the table of a plan (01: the row call), and what the rectangles of a row have in common. What the calls answer is defined in
// specs/; the code is in the crate `rows_code`.
#![tactic(auto)]

use geometry::{Kind, Rect};

// What the row call tells of a row: its left guard's layer, from 1, and the area.
#[derive(Clone, Copy)]
pub struct Row {
    pub layer: u32,
    pub area: u64,
}

// The common rectangle of a row and its kind.
#[derive(Clone, Copy)]
pub struct CommonGround {
    pub rect: Rect,
    pub kind: Kind,
}

// What the first rectangles of a row have in common, its kind, and the layer, from 0, of their left guard.
#[derive(Clone, Copy)]
pub struct Ground {
    pub common: Rect,
    pub kind: Kind,
    pub guard: u32,
}
