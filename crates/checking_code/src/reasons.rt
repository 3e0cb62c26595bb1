// What is wrong with a line that is not well formed.
ghost use Rattle.std.specs.Prelude.{◌≡◌, ◌+◌, ◌≤◌, ◌<◌, length, get_or, drop};
ghost use Rattle.lists.specs.Lists.{is_some};
ghost use Rattle.line.specs.Parsing.{line};
ghost use Rattle.checking.specs.Reasons.{has, digit, digit_next, zero_leads, leading_zero, run_on, long_number, worded, spaced, digits_end, one_number};
ghost use Rattle.checking.specs.Reasons.{count_reason, number_reason, worded_reason, field_reason, place_reason, reason_of};
ghost use Rattle.checking.specs.inner.Words.{reason_text};

use checking::Reason;
use lexer::{read_line, starts};

// Whether a byte stands in a line from a place on.
pub fn has(l: &[u8], from: usize, byte: u8) -> bool
    requires { from ≤ length l.now }
    ensures { result ≡ has byte (drop from l.now) }
{
    l[from..].contains(&byte)
}

// Whether a byte is a digit.
fn is_digit(b: u8) -> bool
    ensures { result ≡ digit b }
{
    b.is_ascii_digit()
}

// Whether a digit stands at a place.
fn digit_at(l: &[u8], i: usize) -> bool
    requires { i ≤ length l.now }
    ensures { result ≡ digit_next (drop i l.now) }
{
    i < l.len() && is_digit(l[i])
}

// Whether a number starts with 0 at a place and goes on.
fn zero_leads(l: &[u8], i: usize, before: u8) -> bool
    requires { i < length l.now }
    ensures { result ≡ zero_leads before (get_or l.now i 0) (drop (i + 1) l.now) }
{
    l[i] == b'0' && (before == b'-' || before == b'\t' && digit_at(l, i + 1))
}

// Whether a number of a line has a leading zero.
pub fn leading_zero(l: &[u8]) -> bool
    ensures { result ≡ leading_zero 0 l.now }
{
    let mut before: u8 = 0;
    for (i, b) in l.iter().enumerate() {
        if zero_leads(l, i, before) {
            return true;
        }
        before = *b;
    }
    false
}

// How many digits stand in a row up to a byte.
fn run_on(run: usize, b: u8) -> usize
    requires { run < 9 }
    ensures { result ≡ run_on run b }
{
    if is_digit(b) {
        return run + 1;
    }
    0
}

// Whether nine digits or more stand in a row in a line.
pub fn long_number(l: &[u8]) -> bool
    ensures { result ≡ long_number 0 l.now }
{
    let mut run: usize = 0;
    for b in l {
        run = run_on(run, *b);
        if 9 <= run {
            return true;
        }
    }
    false
}

// Whether a line is one of the three, wherever it stands.
fn is_line(l: &[u8]) -> bool
    ensures { result ≡ is_some (line l.now) }
{
    read_line(l, 0).is_some()
}

// Whether a line starts with one of the three words, and a tab.
fn is_worded(l: &[u8]) -> bool
    ensures { result ≡ worded l.now }
{
    starts(l, 0, b"RECT\t") || (starts(l, 0, b"LAYER\t") || starts(l, 0, b"PLAN\t"))
}

// Whether a line starts with one of the three words and a space, or with a space.
fn is_spaced(l: &[u8]) -> bool
    ensures { result ≡ spaced l.now }
{
    starts(l, 0, b" ")
        || (starts(l, 0, b"RECT ") || (starts(l, 0, b"LAYER ") || starts(l, 0, b"PLAN ")))
}

// Whether digits, if any, and the line end stand first.
fn digits_end(l: &[u8]) -> bool
    ensures { result ≡ digits_end l.now }
{
    for b in l {
        if !is_digit(*b) {
            return *b == b'\n';
        }
    }
    false
}

// Whether it is a LAYER line with one number.
fn one_number(l: &[u8]) -> bool
    ensures { result ≡ one_number l.now }
{
    starts(l, 0, b"LAYER\t") && (digit_at(l, 6) && digits_end(&l[6..]))
}

// What is wrong with a line whose numbers are not at fault one by one.
fn count_reason(l: &[u8]) -> Reason
    ensures { reason_text result ≡ count_reason l.now }
{
    if one_number(l) {
        return Reason::OneNumber;
    }
    if has(l, 0, b'\n') {
        return Reason::OtherNumbers;
    }
    Reason::NoLineEnd
}

// What is wrong with the numbers of a line.
fn number_reason(l: &[u8]) -> Reason
    ensures { reason_text result ≡ number_reason l.now }
{
    if has(l, 0, b'+') {
        return Reason::Plus;
    }
    if has(l, 0, b'.') {
        return Reason::Point;
    }
    if leading_zero(l) {
        return Reason::LeadingZero;
    }
    if long_number(l) {
        return Reason::LongNumber;
    }
    count_reason(l)
}

// What is wrong with a line behind its word and tab.
fn worded_reason(l: &[u8]) -> Reason
    ensures { reason_text result ≡ worded_reason l.now }
{
    if has(l, 0, b' ') {
        return Reason::Space;
    }
    number_reason(l)
}

// What is wrong with the word of a line, else with its fields.
fn field_reason(l: &[u8]) -> Reason
    ensures { reason_text result ≡ field_reason l.now }
{
    if is_worded(l) {
        return worded_reason(l);
    }
    if is_spaced(l) {
        return Reason::Space;
    }
    Reason::OtherWord
}

// What is wrong with a line that is well formed, but stands in the wrong place. That it is the first is a fact of the line, no step to run.
fn place_reason(first: bool) -> Reason
    ensures { reason_text result ≡ place_reason first }
{
    if first {
        return Reason::NoPlanLine;
    }
    Reason::SecondPlanLine
}

// What is wrong with a line, the first of a text or another.
pub fn reason_of(first: bool, l: &[u8]) -> Reason
    ensures { reason_text result ≡ reason_of first l.now }
{
    if l.len() == 0 {
        return Reason::EmptyText;
    }
    if starts(l, 0, b"\xef\xbb\xbf") {
        return Reason::ByteOrderMark;
    }
    if has(l, 0, b'\r') {
        return Reason::CarriageReturn;
    }
    if starts(l, 0, b"\n") {
        return Reason::BlankLine;
    }
    if is_line(l) {
        return place_reason(first);
    }
    field_reason(l)
}
