// Windows of the week, in which rectangles are there (02, Q-12). Which windows are taken and which minutes those of a row share is defined in specs/; the code
// is in the crate `windows_code`.
#![tactic(auto)]

// The minutes from `from` on, before `to`.
#[derive(Clone, Copy)]
pub struct Window {
    pub from: u32,
    pub to: u32,
}
