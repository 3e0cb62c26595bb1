// What the command `check` tells of a plan text: the types of its answers. What they mean is defined in specs/; `checking_code` makes them.
#![tactic(auto)]

mod reason;

pub use reason::Reason;

// Where a line stands: its number from 1, and the place of its first byte in the text.
#[derive(Clone, Copy)]
pub struct Spot {
    pub number: usize,
    pub at: usize,
}

// What is counted of LAYER and RECT lines: the last LAYER line's number, how many of its RECT lines are due, and whether there was one too many; that is a fact
// beside `due`, which is 0 then.
#[derive(Clone, Copy)]
pub struct Counts {
    pub line: usize,
    pub due: u32,
    pub over: bool,
}

// Where the next line on standard error goes, and how many things are wrong so far; beyond what is told, one more is counted.
#[derive(Clone, Copy)]
pub struct Pen {
    pub at: usize,
    pub told: usize,
}
