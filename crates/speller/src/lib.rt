// The numbers and the lines of a plan text, measured, and written by a pen. What they are is defined in the crates `decimal` and `line`.
#![tactic(auto)]

mod measure;
mod numbers;
mod places;
mod put;

pub use measure::{layer_line_size, plan_line_size, rect_line_size};
pub use numbers::{put_decimal, put_natural};
pub use places::put_word;
pub use put::{put_layer_line, put_plan_line, put_rect_line};
