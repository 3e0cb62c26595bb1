// Where the texts come from.
ghost use Rattle.std.specs.Prelude.{◌≡◌};
ghost use Rattle.commands.specs.Arguments.{text_source, second_source};

use crate::arguments::{call_of, count_arguments, fitting_command};
use crate::limits::limit_of;

// Where the text comes from: 0 from nowhere, 1 from standard input, n above 1 from the file that the program's argument n names.
pub fn text_source(arguments: &[u8]) -> usize
    ensures { result ≡ text_source arguments.now }
{
    let call = call_of(arguments);
    let Some(command) = fitting_command(call) else {
        return 0;
    };
    if limit_of(command, 4) != 1 {
        return 0;
    }
    if limit_of(command, 2) < call.names {
        return count_arguments(arguments);
    }
    1
}

// Where the second text comes from, likewise; 0 where the command takes none.
pub fn second_source(arguments: &[u8]) -> usize
    ensures { result ≡ second_source arguments.now }
{
    let call = call_of(arguments);
    let Some(command) = fitting_command(call) else {
        return 0;
    };
    if limit_of(command, 2) == 0 {
        return 0;
    }
    2 + call.numbers
}
