// The command `check`: whether a text is a plan's, and what is wrong with it, by line and in words. What it says is defined in the crate `checking`.
#![tactic(auto)]

mod faults;
mod notes;
mod reasons;
mod seek;
mod words;

ghost use Rattle.std.specs.Prelude.{◌≡◌, [], ◌∷◌, ◌≤◌, length};
ghost use Rattle.lists.specs.inner.Stores.{Put};
ghost use Rattle.decimal.specs.Numerals.{decimal};
ghost use Rattle.plan.specs.Causes.{number_of};
ghost use Rattle.plan.specs.Limits.{most_cells};
ghost use Rattle.text.specs.Reader.{read_cause};
ghost use Rattle.printing.specs.Lines.{line_of, fields_end};
ghost use Rattle.printing.specs.inner.Parts.{FitsAt};
ghost use Rattle.outcomes.specs.Texts.{ascii};
ghost use Rattle.outcomes.specs.Outcomes.{Told};
ghost use Rattle.outcomes.specs.inner.Rooms.{Room, room_for_all, room_for_words};
ghost use Rattle.checking.specs.Lines.{bad_line};
ghost use Rattle.checking.specs.Places.{PutWords};
ghost use Rattle.checking.specs.Check.{plan_found, bad_error, why_lines, check_of};

use faults::put_faults;
use outcomes::{LONGEST_INPUT, Reply};
use outcomes_code::{put_cause, put_refusal};
use plan::{Cause, MOST_CELLS, Shape};
use plan_code::count_of;
use printing_code::{put_field, put_last, put_refused};
use reader::read;
use reasons::reason_of;
pub use reasons::{has, leading_zero, long_number};
pub use seek::line_end;
use seek::seek;
use speller::put_word;
use words::put_line_error;
pub use words::put_numbered;

// What `check` says of a text, put into two lent buffers.
pub fn check(text: &[u8], out: &mut [u8], err: &mut [u8]) -> Reply
    requires { Room out.old err.old }
    ensures { Told (check_of text.now) out.old err.old out.new err.new result }
{
    if LONGEST_INPUT < text.len() {
        return put_refusal(out, err, Cause::LongInput);
    }
    let mut cells = [0i32; MOST_CELLS];
    check_text(text, &mut cells, out, err)
}

// The same of a text that is not too long, with the cells that it is read into.
fn check_text(text: &[u8], cells: &mut [i32], out: &mut [u8], err: &mut [u8]) -> Reply
    requires { (length text.now ≤ 65536) × (length cells.old ≡ most_cells) × Room out.old err.old }
    ensures { Told (check_of text.now) out.old err.old out.new err.new result }
{
    match read(text, cells) {
        Ok(shape) => Reply::done(put_plan(out, shape)),
        Err(cause) => {
            let m = put_refused(out, 0, u32::from(cause));
            let n = put_why(text, cause, err);
            Reply::refused(m, n)
        }
    }
}

// The line of a plan that was found; its length.
fn put_plan(out: &mut [u8], shape: Shape) -> usize
    requires { room_for_all ≤ length out.old }
    ensures { Put out.old 0 (plan_found shape) out.new result }
{
    let n = count_of(shape);
    put_found(out, shape.k as u64, n as u64)
}

// The line of a plan of k layers and n rectangles; its length.
fn put_found(out: &mut [u8], k: u64, n: u64) -> usize
    requires { FitsAt out.old 0 (line_of (ascii "PLAN") (decimal k ∷ decimal n ∷ [])) }
    ensures { Put out.old 0 (line_of (ascii "PLAN") (decimal k ∷ decimal n ∷ [])) out.new result }
{
    let a = put_word(out, 0, b"PLAN");
    put_two(out, a, k, n)
}

// Two fields that end a line; the place behind them.
fn put_two(out: &mut [u8], at: usize, k: u64, n: u64) -> usize
    requires { FitsAt out.old at (fields_end (decimal k ∷ decimal n ∷ [])) }
    ensures { Put out.old at (fields_end (decimal k ∷ decimal n ∷ [])) out.new result }
{
    let a = put_field(out, at, k);
    put_last(out, a, n)
}

// Why a text is refused, by its cause; the length of the lines.
fn put_why(text: &[u8], cause: Cause, err: &mut [u8]) -> usize
    requires { (number_of cause ≡ read_cause most_cells text.now) × (length text.now ≤ 65536) × (room_for_words ≤ length err.old) }
    ensures { PutWords err.old (why_lines (number_of cause) text.now) err.new result }
{
    match cause {
        Cause::MalformedText => put_bad(text, err),
        Cause::WrongPlanText => put_faults(text, err),
        _ => put_cause(err, cause),
    }
}

// The first line that is not well formed, and what is wrong with it; the length of the line that says so.
fn put_bad(text: &[u8], err: &mut [u8]) -> usize
    requires { (length text.now ≤ 65536) × (room_for_words ≤ length err.old) }
    ensures { PutWords err.old (bad_error (bad_line text.now)) err.new result }
{
    let spot = seek(text);
    let number = spot.number;
    let at = spot.at;
    let end = line_end(text, at);
    let reason = reason_of(number == 1, &text[at..end]);
    put_line_error(err, 0, number, reason)
}
