// What a command of the program says: an exit status, bytes for standard output and bytes for standard error. Outcomes are defined in specs/; the code is
// in the crate `outcomes_code`.
#![tactic(auto)]

ghost use Rattle.std.specs.Prelude.{◌≡◌};
ghost use Rattle.outcomes.specs.Outcomes.{exit_status, done_reply, refused_reply, misused_reply};

// The longest input that a command takes.
pub const LONGEST_INPUT: usize = 65536;

// How a command ended, each with its exit status.
#[derive(Clone, Copy, PartialEq, Eq, Debug)]
pub enum Status {
    // It did what it was asked.
    Done = 0,
    // What it was given is refused.
    Refused = 1,
    // Its arguments are none that it takes.
    Misused = 2,
}

impl From<Status> for u32 {
    ghost from_gives = { λ status number. number ≡ exit_status status };

    fn from(status: Status) -> u32 {
        status as u32
    }
}

// What a command hands back beside its two buffers: how it ended, and how many of their first bytes are to be written.
#[derive(Clone, Copy)]
pub struct Reply {
    pub status: Status,
    pub out: usize,
    pub err: usize,
}

impl Reply {
    // An answer of so many bytes on standard output.
    pub fn done(out: usize) -> Reply
        ensures { result ≡ done_reply out }
    {
        Reply {
            status: Status::Done,
            out,
            err: 0,
        }
    }

    // A refusal, with so many bytes on standard output and so many on standard error.
    pub fn refused(out: usize, err: usize) -> Reply
        ensures { result ≡ refused_reply out err }
    {
        Reply {
            status: Status::Refused,
            out,
            err,
        }
    }

    // Wrong arguments, with so many bytes on standard error.
    pub fn misused(err: usize) -> Reply
        ensures { result ≡ misused_reply err }
    {
        Reply {
            status: Status::Misused,
            out: 0,
            err,
        }
    }
}
