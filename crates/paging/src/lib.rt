// Cursors, tickets, pages and whole runs: the types of the calls' answers. What the calls answer is defined in specs/; what demand 3 says of lists of
// calls is in the crate `demands`, the code of the calls in the crates `pager` and `runner`.
#![tactic(auto)]

use plan::MOST_SLOTS;
use totals::Total;

// 2^57: more probes than any walk has, so a counter that a page call takes is below it.
pub const MOST_PROBES: u64 = 144115188075855872;

// Names the probe due next: the guard's layer, from 1, and place, how many slots are filled, the chosen places, first
// slot first, unfilled ones 0, and the place to try. Or the walk has ended, and all else is 0.
#[derive(Clone, Copy)]
pub struct Cursor {
    pub ended: bool,
    pub layer: u32,
    pub place: u32,
    pub filled: u32,
    pub chosen: [u32; MOST_SLOTS],
    pub next: u32,
}

// What goes from call to call (01 and 02: a ticket): the cursor, and how many probes its run has done so far.
#[derive(Clone, Copy)]
pub struct Ticket {
    pub cursor: Cursor,
    pub count: u64,
}

// Why a page stopped: no probe is left, the table is full, the budget is spent; or it was refused, with the number of the cause.
#[derive(Clone, Copy)]
pub enum Stop {
    Ended,
    Full,
    Spent,
    Refused(u32),
}

// What the page call answers: why it stopped, how many rows it put into the table, how many probes it did, the sum of its rows'
// areas, and the ticket for what is due next. A refused page has the ticket that was given.
#[derive(Clone, Copy)]
pub struct Page {
    pub stop: Stop,
    pub rows: u32,
    pub probes: u32,
    pub area: Total,
    pub ticket: Ticket,
}

// What a whole run has done: how many rows, how many probes, the sum of the areas, and the ground of all rows counted once.
#[derive(Clone, Copy)]
pub struct Done {
    pub rows: u32,
    pub probes: u64,
    pub area: Total,
    pub ground: Total,
}
