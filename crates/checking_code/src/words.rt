// Lines on standard error that name a line of the text, and say what is wrong with it.
ghost use Rattle.std.specs.Prelude.{◌≡◌, [], ◌∷◌, ◌++◌};
ghost use Rattle.lists.specs.inner.Stores.{Put};
ghost use Rattle.decimal.specs.Numerals.{decimal};
ghost use Rattle.printing.specs.inner.Parts.{FitsAt};
ghost use Rattle.outcomes.specs.Texts.{ascii, text_part};
ghost use Rattle.checking.specs.Check.{line_error};
ghost use Rattle.checking.specs.inner.Words.{reason_lines, reason_text};

use checking::Reason;
use outcomes_code::{part_of, put_line};
use speller::{put_decimal, put_word};

// All reasons, a line each, from 0.
fn reason_lines() -> [u8; 866]
    ensures { result ≡ reason_lines }
{
    *b"the text is empty\n\
a byte order mark\n\
a carriage return\n\
a blank line\n\
the first line is no PLAN line\n\
a second PLAN line\n\
a space: fields are parted by one tab and nothing else\n\
a word that is none of PLAN, LAYER and RECT, or no tab behind it\n\
a LAYER line with one number\n\
a number with a plus\n\
a number with a point\n\
a number with a leading zero\n\
a number of nine digits or more\n\
not the numbers that its word wants: PLAN 1, LAYER 2, RECT 4, each behind one tab\n\
no line end at the end of the text\n\
a plan of fewer than 2 layers, or more than 6\n\
the PLAN line says another number of LAYER lines\n\
a layer of more than 512 rectangles, or fewer than 0\n\
a margin above 50000 or below 0\n\
fewer RECT lines than this LAYER line says\n\
more RECT lines than the LAYER line says\n\
a RECT line before any LAYER line\n\
left above right\n\
bottom above top\n\
a coordinate above 10000000 or below -10000000\n"
}

// A line of a text by its number, from 0; the place behind it.
fn put_part(buf: &mut [u8], at: usize, text: &[u8], n: u32) -> usize
    requires { FitsAt buf.old at (text_part 10 n text.now ++ 10 ∷ []) }
    ensures { Put buf.old at (text_part 10 n text.now ++ 10 ∷ []) buf.new result }
{
    put_line(buf, at, part_of(text, n, b'\n'))
}

// A colon and a line of a text by its number; the place behind them.
fn put_colon(buf: &mut [u8], at: usize, text: &[u8], n: u32) -> usize
    requires { FitsAt buf.old at (ascii ": " ++ (text_part 10 n text.now ++ 10 ∷ [])) }
    ensures { Put buf.old at (ascii ": " ++ (text_part 10 n text.now ++ 10 ∷ [])) buf.new result }
{
    let a = put_word(buf, at, b": ");
    put_part(buf, a, text, n)
}

// A number, a colon and a line of a text by its number; the place behind them.
pub fn put_numbered(buf: &mut [u8], at: usize, number: u64, text: &[u8], n: u32) -> usize
    requires { FitsAt buf.old at (decimal number ++ (ascii ": " ++ (text_part 10 n text.now ++ 10 ∷ []))) }
    ensures { Put buf.old at (decimal number ++ (ascii ": " ++ (text_part 10 n text.now ++ 10 ∷ []))) buf.new result }
{
    let a = put_decimal(buf, at, number);
    put_colon(buf, a, text, n)
}

// A line on standard error that names a line of the text, and a reason; the place behind it.
pub fn put_line_error(err: &mut [u8], at: usize, number: usize, reason: Reason) -> usize
    requires { FitsAt err.old at (line_error number (reason_text reason)) }
    ensures { Put err.old at (line_error number (reason_text reason)) err.new result }
{
    let lines = reason_lines();
    let a = put_word(err, at, b"overlay: line ");
    put_numbered(err, a, number as u64, &lines, u32::from(reason))
}
