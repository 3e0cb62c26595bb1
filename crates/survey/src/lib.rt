// Corner records of the survey instrument, survey strips, and the layer of the records' covers (02, Q-9): defined in specs/. The code is in the crate
// `survey_code`.
#![tactic(auto)]

// A corner record of the instrument.
#[derive(Clone, Copy)]
pub struct Corners {
    pub left: f64,
    pub bottom: f64,
    pub right: f64,
    pub top: f64,
}

// A survey strip on one axis: free, with a lower stop, with an upper stop, or with both, the lower one first. Its stops belong to it.
#[derive(Clone, Copy)]
pub enum Strip {
    Free,
    From(f64),
    To(f64),
    Between(f64, f64),
}
