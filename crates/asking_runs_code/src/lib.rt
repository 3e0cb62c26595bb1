// The command `pairs` on a plan text, which makes a whole run of each two layers. What it says is defined in the crate `asking`.
#![tactic(auto)]

mod every;
mod lines;
mod listing;
mod pairing;
mod two;

pub use pairing::pairs;

// How far lines are listed: the place behind them, and how many they are.
#[derive(Clone, Copy)]
pub struct Listed {
    pub at: usize,
    pub rows: u32,
}
