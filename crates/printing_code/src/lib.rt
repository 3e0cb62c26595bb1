// The lines of the report, written by a pen: a row's, the total, a refusal. They are defined in the crate `printing`.
#![tactic(auto)]

pub mod lines;
mod places;

pub use places::{put_field, put_joined, put_last, put_refused, put_table, put_total};
