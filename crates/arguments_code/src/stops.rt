// Stops: numbers, or `-` where there is none.
ghost use Rattle.std.specs.Prelude.{◌≡◌, ◌≤◌};
ghost use Rattle.lists.specs.Lists.{same};
ghost use Rattle.outcomes.specs.Texts.{ascii};
ghost use Rattle.commands.specs.Arguments.{argument, is_taken, weight_at, given_in};

use crate::arguments::{is_number, names_number, same_bytes};
use outcomes_code::part_of;

// Whether a word is `-`.
fn is_dash(word: &[u8]) -> bool
    ensures { result ≡ same word.now (ascii "-") }
{
    same_bytes(word, b"-")
}

// Whether a word is taken for a number.
fn is_taken(dash: usize, word: &[u8]) -> bool
    ensures { result ≡ is_taken dash word.now }
{
    is_number(word) || dash == 1 && is_dash(word)
}

// Whether an argument is taken for a number.
pub fn takes_number(dash: usize, arguments: &[u8], i: u32) -> bool
    ensures { result ≡ is_taken dash (argument i arguments.now) }
{
    is_taken(dash, part_of(arguments, i, 0))
}

// The weight of an argument that is a number, and 0 of another.
fn weight_at(arguments: &[u8], i: u32, weight: u32) -> u32
    ensures { (result ≡ weight_at arguments.now i weight) × (result ≤ weight) }
{
    if names_number(arguments, i) {
        return weight;
    }
    0
}

// Which of the four stops behind the command's word are given, as a sum of weights: 1 left, 2 bottom, 4 right, 8 top.
pub fn given_stops(arguments: &[u8]) -> u32
    ensures { result ≡ given_in arguments.now }
{
    let left = weight_at(arguments, 1, 1);
    let bottom = weight_at(arguments, 2, 2);
    let right = weight_at(arguments, 3, 4);
    let top = weight_at(arguments, 4, 8);
    left + bottom + right + top
}
