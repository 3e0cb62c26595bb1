// The checks 21 and 20: which strips and records are sound.
ghost use Rattle.std.specs.Prelude.{◌≡◌, ◌+◌, ◌*◌, ◌≤◌, length};
ghost use Rattle.survey.specs.Strips.{ordered, sound_strip};
ghost use Rattle.survey.specs.Records.{corners_at, records, cover_of, sound_record, all_sound};
ghost use Rattle.survey.specs.inner.Puts.{spanned, Near};

use floats::{ceil, floor, is_finite, is_near};
use geometry::Rect;
use geometry_code::in_range;
use survey::{Corners, Strip};

// Whether 21 does not apply to the strip.
pub fn sound_strip(s: Strip) -> bool
    ensures { result ≡ sound_strip s }
{
    match s {
        Strip::Free => true,
        Strip::From(a) => is_finite(a),
        Strip::To(b) => is_finite(b),
        Strip::Between(a, b) => in_order(a, b),
    }
}

// Two finite floats, the first not above the second.
fn in_order(low: f64, high: f64) -> bool
    ensures { result ≡ ordered low high }
{
    is_finite(low) && is_finite(high) && low <= high
}

// Whether 20 applies to none of the records. A `for`: of `(0..n).all(..)` with a call in its closure the search does not find what the answer says.
pub fn all_sound(corners: &[f64]) -> bool
    ensures { result ≡ all_sound (records corners.now) }
{
    let n = corners.len() / 4;
    for i in 0..n {
        if !is_sound(record_at(corners, i)) {
            return false;
        }
    }
    true
}

// Whether 20 does not apply to the record.
fn is_sound(c: Corners) -> bool
    ensures { result ≡ sound_record c }
{
    spans(c.left, c.right) && spans(c.bottom, c.top) && in_range(cover(c))
}

// Two floats in order that can be taken to 32 bits.
fn spans(low: f64, high: f64) -> bool
    ensures { result ≡ spanned low high }
{
    is_near(low) && is_near(high) && low <= high
}

// The smallest whole rectangle that contains the record.
pub fn cover(c: Corners) -> Rect
    requires { Near c }
    ensures { result ≡ cover_of c }
{
    Rect {
        left: floor(c.left),
        bottom: floor(c.bottom),
        right: ceil(c.right),
        top: ceil(c.top),
    }
}

// The record at i.
pub fn record_at(corners: &[f64], i: usize) -> Corners
    requires { 4 * i + 4 ≤ length corners.now }
    ensures { result ≡ corners_at corners.now i }
{
    let at = 4 * i;
    Corners {
        left: corners[at],
        bottom: corners[at + 1],
        right: corners[at + 2],
        top: corners[at + 3],
    }
}
