// What each command says, put into the two buffers.
ghost use Rattle.std.specs.Prelude.{◌≡◌, ◌&&◌, ◌≤◌, leb, ltb};
ghost use Rattle.outcomes.specs.Outcomes.{Told, misused, done};
ghost use Rattle.outcomes.specs.inner.Rooms.{Room};
ghost use Rattle.commands.specs.Commands.{most_commands, number_of_named, usage, version_line};
ghost use Rattle.asking.specs.Answers.{apart_of};
ghost use Rattle.commands.specs.Arguments.{places_from};
ghost use Rattle.commands.specs.Outcomes.{report_outcome, help_outcome};

use arguments_code::{fill_places, help_texts, text_number, usage_lines, version_line};
use asking_code::apart;
use commands::Command;
use outcomes::Reply;
use outcomes_code::{put_cause, put_error_part, put_part};
use reporting_code::report_on;
use speller::put_word;

// What is wanted of a command, or of any.
pub fn put_wanted(command: Option<Command>, out: &mut [u8], err: &mut [u8]) -> Reply
    requires { Room out.old err.old }
    ensures { Told (misused (usage (number_of_named command))) out.old err.old out.new err.new result }
{
    let lines = usage_lines();
    Reply::misused(put_error_part(err, &lines, text_number(command), b'\n'))
}

// `report`: the report on a text, and where it is refused what its cause means.
pub fn put_report(text: &[u8], out: &mut [u8], err: &mut [u8]) -> Reply
    requires { Room out.old err.old }
    ensures { Told (report_outcome text.now) out.old err.old out.new err.new result }
{
    let printed = report_on(text, out);
    let m = printed.size;
    match printed.told {
        Ok(()) => Reply::done(m),
        Err(cause) => Reply::refused(m, put_cause(err, cause)),
    }
}

// Whether a name is given that is no command's.
fn is_unknown(names: usize, command: Option<Command>) -> bool
    ensures { result ≡ (ltb 0 names && leb most_commands (number_of_named command)) }
{
    0 < names && command.is_none()
}

// `help`: what a command does, or all of them.
pub fn put_help(names: usize, command: Option<Command>, out: &mut [u8], err: &mut [u8]) -> Reply
    requires { Room out.old err.old }
    ensures { Told (help_outcome names (number_of_named command)) out.old err.old out.new err.new result }
{
    if is_unknown(names, command) {
        return put_wanted(None, out, err);
    }
    let texts = help_texts();
    Reply::done(put_part(out, 0, &texts, text_number(command), 0))
}

// `apart`: the places are the first n numbers.
pub fn put_apart(arguments: &[u8], n: usize, text: &[u8], out: &mut [u8], err: &mut [u8]) -> Reply
    requires { Room out.old err.old × (n ≤ 7) }
    ensures { Told (apart_of text.now (places_from arguments.now 1 n))
        out.old err.old out.new err.new result }
{
    let mut places = [0u32; 7];
    fill_places(arguments, &mut places);
    apart(text, &places[..n], out, err)
}

// `version`.
pub fn put_version(out: &mut [u8], err: &mut [u8]) -> Reply
    requires { Room out.old err.old }
    ensures { Told (done version_line) out.old err.old out.new err.new result }
{
    let line = version_line();
    Reply::done(put_word(out, 0, &line))
}
