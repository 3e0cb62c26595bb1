// What lies nearest to a box in each layer of a plan (02, Q-1): defined in specs/. The code is in the crate `nearest_code`.
#![tactic(auto)]

// What lies nearest in a layer that is not empty: its place, and the squared gap in square millimetres.
#[derive(Clone, Copy)]
pub struct Near {
    pub place: u32,
    pub gap: u64,
}
