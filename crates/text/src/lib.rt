// The plan text. Which texts are well formed, and what reading and writing one answers, is defined in specs/; the code is in the crates `reader` and `writer`.
#![tactic(auto)]

use plan::{MOST_LAYERS, Shape};

// What the reader's first pass has found: well formed and nothing wrong so far, RECT lines due, layers, rectangles in all, sizes, margins.
#[derive(Clone, Copy)]
pub struct Tally {
    pub formed: bool,
    pub good: bool,
    pub due: u32,
    pub layers: usize,
    pub rects: usize,
    pub sizes: [u32; MOST_LAYERS],
    pub margins: [u32; MOST_LAYERS],
}

// What the reader's first pass finds in an accepted text: the plan's shape, and the place behind the PLAN line.
#[derive(Clone, Copy)]
pub struct Decision {
    pub shape: Shape,
    pub next: usize,
}
