// The arguments: bytes, each argument followed by a byte 0.
ghost use Rattle.std.specs.Prelude.{◌≡◌, ◌-◌, ◌≤◌, ◌<◌, length};
ghost use Rattle.lists.specs.Lists.{same};
ghost use Rattle.outcomes.specs.Texts.{text_part};
ghost use Rattle.commands.specs.Commands.{number_of_command, number_of_named, command_words};
ghost use Rattle.commands.specs.Arguments.{ended, argument_count, argument, is_number, argument_value, box_of, natural_of, layer_in, places_from};
ghost use Rattle.commands.specs.Arguments.{leading_numbers, command_number, looked, fewer, numbers_in, call_told, command_call, is_between, takes_all};
ghost use Rattle.commands.specs.inner.Calls.{Fitting};

use crate::limits::{limit_of, limit_or};
use crate::stops::takes_number;
use crate::texts::command_words;
use commands::{Call, Command};
use geometry::Rect;
use lexer::read_number;
use outcomes_code::part_of;

// The commands, in the order of the tables.
const COMMANDS: [Command; 11] = [
    Command::Report,
    Command::Check,
    Command::Pairs,
    Command::Nearest,
    Command::Apart,
    Command::Classes,
    Command::Hours,
    Command::Cover,
    Command::Picture,
    Command::Help,
    Command::Version,
];

// How many arguments there are.
pub fn count_arguments(arguments: &[u8]) -> usize
    ensures { result ≡ argument_count arguments.now }
{
    arguments.iter().filter(|byte| **byte == 0).count()
}

// Whether two runs of bytes are the same.
pub fn same_bytes(a: &[u8], b: &[u8]) -> bool
    ensures { result ≡ same a.now b.now }
{
    a == b
}

// Whether a word is that of a command.
fn is_command(word: &[u8], command: Command) -> bool
    ensures { result ≡ same word.now (text_part 0 (number_of_command command) command_words) }
{
    let words = command_words();
    same_bytes(word, part_of(&words, u32::from(command), 0))
}

// The command whose word this is.
fn command_of(word: &[u8]) -> Option<Command>
    ensures { number_of_named result ≡ command_number word.now }
{
    for &command in &COMMANDS {
        if is_command(word, command) {
            return Some(command);
        }
    }
    None
}

// The command that an argument names.
pub fn named_command(arguments: &[u8], i: u32) -> Option<Command>
    ensures { number_of_named result ≡ command_number (argument i arguments.now) }
{
    command_of(part_of(arguments, i, 0))
}

// Whether a word is a number, spelled as in a plan text.
pub fn is_number(word: &[u8]) -> bool
    ensures { result ≡ is_number word.now }
{
    match read_number(word, 0) {
        None => false,
        Some((_, next)) => next == word.len(),
    }
}

// Whether an argument is a number.
pub fn names_number(arguments: &[u8], i: u32) -> bool
    ensures { result ≡ is_number (argument i arguments.now) }
{
    is_number(part_of(arguments, i, 0))
}

// The number that a word starts with, or 0.
fn number_of(word: &[u8]) -> i32
    ensures { result ≡ argument_value word.now }
{
    match read_number(word, 0) {
        None => 0,
        Some((z, _)) => z,
    }
}

// The number that an argument is.
fn number_at(arguments: &[u8], i: u32) -> i32
    ensures { result ≡ argument_value (argument i arguments.now) }
{
    number_of(part_of(arguments, i, 0))
}

// The box of the four numbers behind the command's word.
pub fn box_of(arguments: &[u8]) -> Rect
    ensures { result ≡ box_of arguments.now }
{
    let left = number_at(arguments, 1);
    let bottom = number_at(arguments, 2);
    let right = number_at(arguments, 3);
    let top = number_at(arguments, 4);
    Rect {
        left,
        bottom,
        right,
        top,
    }
}

// A number as that of a layer or a place; one below 0 is none of these.
fn natural_of(z: i32) -> u32
    ensures { result ≡ natural_of z }
{
    u32::try_from(z).unwrap_or(u32::MAX)
}

// The layer or the place that an argument is.
fn natural_at(arguments: &[u8], i: u32) -> u32
    ensures { result ≡ natural_of (argument_value (argument i arguments.now)) }
{
    natural_of(number_at(arguments, i))
}

// The layer that is given behind the command's word, or 0 where none is.
pub fn layer_of(arguments: &[u8], numbers: usize) -> u32
    ensures { result ≡ layer_in numbers arguments.now }
{
    if numbers == 0 {
        return 0;
    }
    let n = natural_at(arguments, 1);
    if n == 0 {
        return u32::MAX;
    }
    n
}

// Puts the places that the first arguments behind the command's word are, one into each cell.
pub fn fill_places(arguments: &[u8], places: &mut [u32])
    requires { length places.old ≤ 7 }
    ensures { places.new ≡ places_from arguments.now 1 (length places.old) }
{
    for (i, place) in places.iter_mut().enumerate() {
        *place = natural_at(arguments, (i + 1) as u32);
    }
}

// How many of the first arguments behind the command's word, at most so many, are taken for numbers; 1 says that `-` may stand for one.
fn count_numbers(dash: usize, arguments: &[u8], most: u32) -> u32
    requires { most ≤ 7 }
    ensures { (result ≡ leading_numbers dash arguments.now 1 most) × (result ≤ most) }
{
    for n in 0..most {
        if !takes_number(dash, arguments, n + 1) {
            return n;
        }
    }
    most
}

// How many of so many arguments are looked at for numbers.
fn looked_at(count: usize) -> u32
    ensures { (result ≡ looked count) × (result ≤ 7) × (result ≤ count - 1) }
{
    count.saturating_sub(1).min(7) as u32
}

// The lesser of two.
fn fewer_of(n: usize, m: u32) -> u32
    ensures { (result ≡ fewer n m) × (result ≤ m) }
{
    n.min(m as usize) as u32
}

// How many numbers there are behind the word of a command, where there are so many arguments.
fn numbers_of(command: Option<Command>, arguments: &[u8], count: usize) -> usize
    requires { count ≡ argument_count arguments.now }
    ensures { (result ≡ numbers_in (number_of_named command) arguments.now) × (result ≤ 7) × (result ≤ count - 1) }
{
    let most = fewer_of(limit_or(command, 1), looked_at(count));
    let dash = limit_or(command, 5);
    count_numbers(dash, arguments, most) as usize
}

// What the arguments ask for.
pub fn call_of(arguments: &[u8]) -> Call
    ensures { (call_told result ≡ command_call arguments.now) × (result.numbers ≤ 7) }
{
    let count = count_arguments(arguments);
    let command = named_command(arguments, 0);
    let numbers = numbers_of(command, arguments, count);
    let names = rest_of(count, numbers);
    Call {
        command,
        numbers,
        names,
    }
}

// How many arguments are neither the command's word nor a number.
fn rest_of(count: usize, numbers: usize) -> usize
    requires { numbers ≤ count - 1 }
    ensures { result ≡ count - 1 - numbers }
{
    count.saturating_sub(1) - numbers
}

// Whether a number is from the low one to the high one.
fn is_within(low: usize, n: usize, high: usize) -> bool
    ensures { result ≡ is_between low n high }
{
    low <= n && n <= high
}

// Whether a command takes as many numbers and names as there are.
fn takes(command: Command, numbers: usize, names: usize) -> bool
    ensures { result ≡ takes_all (record { command = number_of_command command; numbers = numbers; names = names }) }
{
    is_within(limit_of(command, 0), numbers, limit_of(command, 1))
        && is_within(limit_of(command, 2), names, limit_of(command, 3))
}

// The command of a call, where it takes as many numbers and names as there are.
pub fn fitting_command(call: Call) -> Option<Command>
    ensures { Fitting call result }
{
    let command = call.command?;
    if takes(command, call.numbers, call.names) {
        return Some(command);
    }
    None
}
