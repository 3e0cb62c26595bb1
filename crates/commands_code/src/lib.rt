// The program `overlay`, as one function over bytes. What it says is defined in the crate `commands`.
#![tactic(auto)]

mod answers;

ghost use Rattle.std.specs.Prelude.{◌≡◌, ◌≤◌, get_or, Some};
ghost use Rattle.outcomes.specs.Outcomes.{Told};
ghost use Rattle.outcomes.specs.inner.Rooms.{Room};
ghost use Rattle.asking_runs_code.specs.Listing.{Lent};
ghost use Rattle.commands.specs.Commands.{number_of_command};
ghost use Rattle.commands.specs.Arguments.{call_told};
ghost use Rattle.commands.specs.Outcomes.{answers, wanted, command_of};

use answers::{put_apart, put_help, put_report, put_version, put_wanted};
use arguments_code::{box_of, call_of, fitting_command, given_stops, layer_of, named_command};
pub use arguments_code::{second_source, text_source};
use asking_code::nearest;
use asking_runs_code::pairs;
use checking_code::check;
use commands::{Call, Command};
use listing_code::cover;
use listing_runs_code::{classes, hours};
use outcomes::Reply;
use picture_code::picture;

// What the program says for its arguments, each followed by a byte 0, a text and a second text: the exit status, and the bytes for standard output and
// for standard error, which stand at the start of two lent
// buffers that have room for any. What the cells of `table` and `work` hold before does not matter, and what they hold afterwards is free.
pub fn command(
    arguments: &[u8],
    text: &[u8],
    second: &[u8],
    table: &mut [u32; 524288],
    work: &mut [i32; 524288],
    out: &mut [u8; 167772160],
    err: &mut [u8; 65536],
) -> Reply
    ensures { Told (command_of arguments.now text.now second.now)
        out.old err.old out.new err.new result }
{
    command_on(arguments, text, second, table, work, out, err)
}

// The same, where there is room.
fn command_on(
    arguments: &[u8],
    text: &[u8],
    second: &[u8],
    table: &mut [u32],
    work: &mut [i32],
    out: &mut [u8],
    err: &mut [u8],
) -> Reply
    requires { Room out.old err.old × Lent table.old work.old }
    ensures { Told (command_of arguments.now text.now second.now)
        out.old err.old out.new err.new result }
{
    let call = call_of(arguments);
    match fitting_command(call) {
        Some(command) => answer(
            command, call, arguments, text, second, table, work, out, err,
        ),
        None => put_wanted(call.command, out, err),
    }
}

// What the command of a call that fits says.
fn answer(
    command: Command,
    call: Call,
    arguments: &[u8],
    text: &[u8],
    second: &[u8],
    table: &mut [u32],
    work: &mut [i32],
    out: &mut [u8],
    err: &mut [u8],
) -> Reply
    requires { Room out.old err.old × (call.command ≡ Some command) × (call.numbers ≤ 7) × Lent table.old work.old }
    ensures { Told (get_or (answers (call_told call) arguments.now text.now second.now) (number_of_command command) (wanted (call_told call)))
        out.old err.old out.new err.new result }
{
    let n = call.numbers;
    match command {
        Command::Report => put_report(text, out, err),
        Command::Check => check(text, out, err),
        Command::Pairs => pairs(text, layer_of(arguments, n), table, work, out, err),
        Command::Nearest => nearest(text, box_of(arguments), out, err),
        Command::Apart => put_apart(arguments, n, text, out, err),
        Command::Classes => classes(text, out, err),
        Command::Hours => hours(text, second, out, err),
        Command::Cover => cover(text, box_of(arguments), given_stops(arguments), out, err),
        Command::Picture => picture(text, out, err),
        Command::Help => put_help(call.names, named_command(arguments, 1), out, err),
        Command::Version => put_version(out, err),
    }
}
