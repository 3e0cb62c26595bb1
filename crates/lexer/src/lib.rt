// The numbers and the lines of a plan text, read at a place of the text. What they are is defined in the crates `decimal` and `line`.
#![tactic(auto)]

mod numbers;
mod parse;

pub use numbers::read_number;
pub use parse::{read_field, read_line, starts};
