// The commands `apart` and `nearest` on a plan text, and the reading of one. What they say is defined in the crate `asking`.
#![tactic(auto)]

mod gaps;
mod near;
mod pair;
mod plans;
mod roots;

pub use near::nearest;
pub use pair::apart;
pub use plans::read_text;
