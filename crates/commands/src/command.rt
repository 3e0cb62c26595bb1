// The commands of the program, each with its number in the tables of words, limits and texts.
ghost use Rattle.std.specs.Prelude.{◌≡◌};
ghost use Rattle.commands.specs.Commands.{number_of_command};

// What the program can be asked for.
#[derive(Clone, Copy, PartialEq, Eq, Debug)]
pub enum Command {
    Report = 0,
    Check = 1,
    Pairs = 2,
    Nearest = 3,
    Apart = 4,
    Classes = 5,
    Hours = 6,
    Cover = 7,
    Picture = 8,
    Help = 9,
    Version = 10,
}

impl From<Command> for u32 {
    ghost from_gives = { λ command number. number ≡ number_of_command command };

    fn from(command: Command) -> u32 {
        command as u32
    }
}
