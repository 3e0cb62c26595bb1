// Lines, read at a place of a text.
ghost use Rattle.std.specs.Prelude.{◌≡◌, ◌≤◌, length, drop};
ghost use Rattle.line.specs.Places.{starts_with, Alone, field_from, rect_from, layer_from, plan_from, line_from};

use crate::numbers::{kind_at, read_number};
use decimal::Kind;
use geometry::Rect;
use line::Line;

// Whether a word stands at a place.
pub fn starts(s: &[u8], at: usize, word: &[u8]) -> bool
    requires { at ≤ length s.now }
    ensures { result ≡ starts_with word.now (drop at s.now) }
{
    s[at..].starts_with(word)
}

// A number with the byte of a kind behind it, which ends its field; and the place behind.
pub fn read_field(s: &[u8], at: usize, end: Kind) -> Option<(i32, usize)>
    ensures { (e : _) → Alone end e → result ≡ field_from s.now at e }
{
    let (z, next) = read_number(s, at)?;
    if kind_at(s, next) == end {
        return Some((z, next + 1));
    }
    None
}

// The four fields of a RECT line.
fn read_rect(s: &[u8], at: usize) -> Option<(Line, usize)>
    ensures { result ≡ rect_from s.now at }
{
    let (left, a) = read_field(s, at, Kind::Tab)?;
    let (bottom, b) = read_field(s, a, Kind::Tab)?;
    let (right, c) = read_field(s, b, Kind::Tab)?;
    let (top, d) = read_field(s, c, Kind::End)?;
    let r = Rect {
        left,
        bottom,
        right,
        top,
    };
    Some((Line::Rectangle(r), d))
}

// The two fields of a LAYER line.
fn read_layer(s: &[u8], at: usize) -> Option<(Line, usize)>
    ensures { result ≡ layer_from s.now at }
{
    let (n, a) = read_field(s, at, Kind::Tab)?;
    let (margin, b) = read_field(s, a, Kind::End)?;
    Some((Line::Layer(n, margin), b))
}

// The number of a PLAN line.
fn read_plan(s: &[u8], at: usize) -> Option<(Line, usize)>
    ensures { result ≡ plan_from s.now at }
{
    let (k, next) = read_field(s, at, Kind::End)?;
    Some((Line::Plan(k), next))
}

// The line at a place, and the place behind it.
pub fn read_line(s: &[u8], at: usize) -> Option<(Line, usize)>
    requires { at ≤ length s.now }
    ensures { result ≡ line_from s.now at }
{
    if starts(s, at, b"RECT\t") {
        return read_rect(s, at + 5);
    }
    if starts(s, at, b"LAYER\t") {
        return read_layer(s, at + 6);
    }
    if starts(s, at, b"PLAN\t") {
        return read_plan(s, at + 5);
    }
    None
}
