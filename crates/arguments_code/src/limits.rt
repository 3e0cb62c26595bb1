// What the commands take.
ghost use Rattle.std.specs.Prelude.{◌≡◌, ◌≤◌};
ghost use Rattle.commands.specs.Commands.{number_of_command, number_of_named, limits, limit};
ghost use Rattle.commands.specs.Arguments.{limit_or};

use commands::Command;

// One of the six limits of a command.
pub fn limit_of(command: Command, column: u32) -> usize
    requires { column ≤ 5 }
    ensures { result ≡ limit (number_of_command command) column }
{
    let table = limit_table();
    let i = (6 * u32::from(command) + column) as usize;
    table[i]
}

// The same; 0 where there is no command.
pub fn limit_or(command: Option<Command>, column: u32) -> usize
    requires { column ≤ 5 }
    ensures { result ≡ limit_or (number_of_named command) column }
{
    match command {
        Some(command) => limit_of(command, column),
        None => 0,
    }
}

// For each command: the fewest and the most numbers, the fewest and the most names, whether it reads a text, and whether `-` may stand for a number.
fn limit_table() -> [usize; 66]
    ensures { result ≡ limits }
{
    [
        0, 0, 0, 1, 1, 0, 0, 0, 0, 1, 1, 0, 0, 1, 0, 1, 1, 0, 4, 4, 0, 1, 1, 0, 1, 6, 0, 1, 1, 0,
        0, 0, 0, 1, 1, 0, 0, 0, 1, 2, 1, 0, 4, 4, 0, 1, 1, 1, 0, 0, 0, 1, 1, 0, 0, 0, 0, 1, 0, 0,
        0, 0, 0, 0, 0, 0,
    ]
}
