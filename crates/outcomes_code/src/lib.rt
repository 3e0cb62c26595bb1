// Outcomes put into the two buffers of a command. What they are is defined in the crate `outcomes`.
#![tactic(auto)]

mod parts;
mod words;

ghost use Rattle.std.specs.Prelude.{[], ◌∷◌, ◌++◌, ◌+◌, ◌≤◌, length};
ghost use Rattle.lists.specs.inner.Stores.{Put};
ghost use Rattle.plan.specs.Causes.{number_of};
ghost use Rattle.printing.specs.inner.Parts.{FitsAt};
ghost use Rattle.outcomes.specs.Texts.{text_part};
ghost use Rattle.outcomes.specs.Outcomes.{Told, error_line, cause_text, refused, misused};
ghost use Rattle.outcomes.specs.inner.Rooms.{Room, room_for_words};

use outcomes::Reply;
pub use parts::{end_of, next_part, part_from, part_of};
use plan::Cause;
use printing_code::put_refused;
use speller::put_word;
use words::{cause_line, cause_lines};

// A refusal: its line, and what its cause means.
pub fn put_refusal(out: &mut [u8], err: &mut [u8], cause: Cause) -> Reply
    requires { Room out.old err.old }
    ensures { Told (refused (number_of cause)) out.old err.old out.new err.new result }
{
    let m = put_refused(out, 0, u32::from(cause));
    let n = put_cause(err, cause);
    Reply::refused(m, n)
}

// Wrong arguments: what is wanted, in words.
pub fn put_misuse(out: &mut [u8], err: &mut [u8], words: &[u8]) -> Reply
    requires { length words.now + 10 ≤ length err.old }
    ensures { Told (misused words.now) out.old err.old out.new err.new result }
{
    let n = put_error(err, words);
    Reply::misused(n)
}

// The line of a cause on standard error; its length.
pub fn put_cause(err: &mut [u8], cause: Cause) -> usize
    requires { room_for_words ≤ length err.old }
    ensures { Put err.old 0 (error_line (cause_text (number_of cause))) err.new result }
{
    let lines = cause_lines();
    put_error_part(err, &lines, cause_line(cause), b'\n')
}

// The part of a number of a text, from 0, as a line on standard error; its length.
pub fn put_error_part(err: &mut [u8], text: &[u8], n: u32, e: u8) -> usize
    requires { length text.now + 10 ≤ length err.old }
    ensures { Put err.old 0 (error_line (text_part e n text.now)) err.new result }
{
    put_error(err, part_of(text, n, e))
}

// The part of a number of a text, from 0; the place behind it.
pub fn put_part(buf: &mut [u8], at: usize, text: &[u8], n: u32, e: u8) -> usize
    requires { at + length text.now ≤ length buf.old }
    ensures { Put buf.old at (text_part e n text.now) buf.new result }
{
    put_word(buf, at, part_of(text, n, e))
}

// Words as a line on standard error; its length.
pub fn put_error(err: &mut [u8], words: &[u8]) -> usize
    requires { length words.now + 10 ≤ length err.old }
    ensures { Put err.old 0 (error_line words.now) err.new result }
{
    let at = put_word(err, 0, b"overlay: ");
    put_line(err, at, words)
}

// Words and the byte that ends their line; the place behind it.
pub fn put_line(buf: &mut [u8], at: usize, words: &[u8]) -> usize
    requires { FitsAt buf.old at (words.now ++ 10 ∷ []) }
    ensures { Put buf.old at (words.now ++ 10 ∷ []) buf.new result }
{
    let a = put_word(buf, at, words);
    put_word(buf, a, b"\n")
}
