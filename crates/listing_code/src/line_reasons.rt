// What is wrong with a line of a windows text that is not well formed.
ghost use Rattle.std.specs.Prelude.{◌≡◌, suc};
ghost use Rattle.listing.specs.Reasons.{reason_number, numbers_reason, fields_reason, word_reason, line_reason};

use checking_code::{has, leading_zero, long_number};
use lexer::starts;
use listing::Reason;

// What is wrong with the numbers of a line.
fn numbers_reason(l: &[u8]) -> Reason
    ensures { reason_number result ≡ suc (numbers_reason l.now) }
{
    if leading_zero(l) {
        return Reason::LeadingZero;
    }
    if long_number(l) {
        return Reason::LongNumber;
    }
    if has(l, 0, b'\n') {
        return Reason::OtherNumbers;
    }
    Reason::NoLineEnd
}

// What is wrong with a line behind its word and tab.
fn fields_reason(l: &[u8]) -> Reason
    ensures { reason_number result ≡ suc (fields_reason l.now) }
{
    if has(l, 0, b' ') {
        return Reason::Space;
    }
    if has(l, 0, b'+') {
        return Reason::Plus;
    }
    if has(l, 0, b'.') {
        return Reason::Point;
    }
    numbers_reason(l)
}

// What is wrong with a line whose word is another.
fn word_reason(l: &[u8]) -> Reason
    ensures { reason_number result ≡ suc (word_reason l.now) }
{
    if starts(l, 0, b" ") {
        return Reason::Space;
    }
    if starts(l, 0, b"WINDOW ") {
        return Reason::Space;
    }
    Reason::OtherWord
}

// What is wrong with a line.
pub fn line_reason(l: &[u8]) -> Reason
    ensures { reason_number result ≡ suc (line_reason l.now) }
{
    if starts(l, 0, b"\xef\xbb\xbf") {
        return Reason::ByteOrderMark;
    }
    if has(l, 0, b'\r') {
        return Reason::CarriageReturn;
    }
    if starts(l, 0, b"\n") {
        return Reason::BlankLine;
    }
    if starts(l, 0, b"WINDOW\t") {
        return fields_reason(l);
    }
    word_reason(l)
}
