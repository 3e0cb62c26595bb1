// A picture of a plan, as an SVG document: its texts and what stands in them, defined in specs/. The code is in the crate `picture_code`.
#![tactic(auto)]

// What a picture shows: the left and the top of the ground, its width and height, and the unit that the legend, the hatchings and the crosses are drawn in, all
// in millimetres.
#[derive(Clone, Copy)]
pub struct Frame {
    pub left: i32,
    pub top: i32,
    pub width: u64,
    pub height: u64,
    pub unit: u64,
}
