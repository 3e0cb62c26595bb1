// A plan: its shape, the numbers that bound it, and why calls refuse. What a plan, its layers and its causes are is defined in specs/; the code is in the
// crate `plan_code`.
#![tactic(auto)]

mod cause;

pub use cause::Cause;

// The most layers that a plan has.
pub const MOST_LAYERS: usize = 6;

// The most slots of a guard: all layers but its own.
pub const MOST_SLOTS: usize = MOST_LAYERS - 1;

// The most rectangles of a layer, and of a plan, and the cells of these.
pub const MOST_SIZE: u32 = 512;

pub const MOST_RECTS: usize = 3072;

pub const MOST_CELLS: usize = 12288;

// The largest margin of a layer.
pub const MOST_MARGIN: u32 = 50000;

// A plan's k, six sizes and six margins.
#[derive(Clone, Copy)]
pub struct Shape {
    pub k: u32,
    pub sizes: [u32; MOST_LAYERS],
    pub margins: [u32; MOST_LAYERS],
}
