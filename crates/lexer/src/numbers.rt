// A whole number in base ten, read at a place of a text. It is short: it has at most `most_digits` digits.
ghost use Rattle.std.specs.Prelude.{◌≡◌, true, ◌+◌, ◌^◌, ◌<◌, ◌≤◌, length, get_or};
ghost use Rattle.decimal.specs.Numerals.{most_digits};
ghost use Rattle.decimal.specs.inner.Bytes.{kind_of, is_digit};
ghost use Rattle.decimal.specs.inner.Places.{is_minus, MoreFrom, sign, zero_at, number_from};

use decimal::{Digits, Kind};

// The most digits of a number behind its first: `most_digits - 1`.
const MORE: usize = 7;

// The kind of a byte. Digits are told first: the compiler then finds one by a single comparison, and branches between 0 and 1 to 9 only where they differ.
fn kind_of(b: u8) -> Kind
    ensures { result ≡ kind_of b }
{
    match b {
        b'0' => Kind::Zero,
        b'1'..=b'9' => Kind::Digit,
        _ => match b {
            b'-' => Kind::Minus,
            b'\t' => Kind::Tab,
            b'\n' => Kind::End,
            _ => Kind::Other,
        },
    }
}

// The kind of the byte at a place; that of 0, `Other`, where the text has none.
pub fn kind_at(s: &[u8], i: usize) -> Kind
    ensures { result ≡ kind_of (get_or s.now i 0) }
{
    if i < s.len() {
        return kind_of(s[i]);
    }
    Kind::Other
}

// Whether a byte of this kind is a digit.
fn is_digit(kind: Kind) -> bool
    ensures { result ≡ is_digit kind }
{
    matches!(kind, Kind::Zero | Kind::Digit)
}

// Whether a byte of this kind is a minus.
fn is_minus(kind: Kind) -> bool
    ensures { result ≡ is_minus kind }
{
    matches!(kind, Kind::Minus)
}

// Up to MORE digits more, behind a first one.
fn more_digits(s: &[u8], at: usize, first: u32) -> Digits
    requires { (first ≤ 9) × (at ≤ length s.now) }
    ensures { MoreFrom s.now at first result }
{
    let mut value = first;
    let mut i = at;
    for _ in 0..MORE {
        if !is_digit(kind_at(s, i)) {
            break;
        }
        value = value * 10 + (s[i] - 48) as u32;
        i += 1;
    }
    Digits { value, next: i }
}

// A magnitude as a number above 0, or below it. A flag, since it says what was read: whether a minus stands before the digits.
fn signed(n: u32, minus: bool) -> i32
    requires { n < 10 ^ most_digits }
    ensures { result ≡ sign minus n }
{
    if minus {
        return 0 - (n as i32);
    }
    n as i32
}

// The number at a place and the place behind it: its minus, if it has one, and what its first digit decides.
pub fn read_number(s: &[u8], at: usize) -> Option<(i32, usize)>
    ensures { result ≡ number_from s.now at }
{
    let minus = is_minus(kind_at(s, at));
    let i = if minus { at + 1 } else { at };
    match kind_at(s, i) {
        Kind::Minus => None,
        Kind::Zero => zero_at(i, minus),
        Kind::Digit => {
            let d = more_digits(s, i + 1, (s[i] - 48) as u32);
            Some((signed(d.value, minus), d.next))
        }
        Kind::Tab => None,
        Kind::End => None,
        Kind::Other => None,
    }
}

// The number 0 at a place, which no minus stands before. The flag says what was read, as above.
fn zero_at(at: usize, minus: bool) -> Option<(i32, usize)>
    requires { at < 18446744073709551615 }
    ensures { result ≡ zero_at minus (at + 1) }
{
    if minus {
        return None;
    }
    Some((0, at + 1))
}
