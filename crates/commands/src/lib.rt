// The commands of the program `overlay`: which there are, what they take, and what each says. All of it is defined in specs/; the code is in the crate
// `commands_code`.
#![tactic(auto)]

mod command;

pub use command::Command;

// What the arguments ask for: the command, if their first is the word of one, how many numbers stand behind it, and how many names behind these.
#[derive(Clone, Copy)]
pub struct Call {
    pub command: Option<Command>,
    pub numbers: usize,
    pub names: usize,
}
