// The hatchings in rectangles.
ghost use Rattle.std.specs.Prelude.{◌≡◌, ◌*◌, ◌/◌, ◌<◌, pos, ◌+ℤ◌, ◌-ℤ◌};
ghost use Rattle.picture.specs.Hatchings.{hatching_of, beyond, fourth, points};

use crate::numbers::{whole, wide};
use geometry::Rect;
use geometry_code::span;

// The hatching of a layer: of each of its points how many fourths of the width and of the height it lies from the left bottom corner.
fn hatching_of(layer: u64) -> [u8; 12]
    ensures { result ≡ hatching_of layer }
{
    if layer == 1 {
        return [0, 1, 4, 1, 4, 2, 0, 2, 0, 3, 4, 3];
    }
    if layer == 2 {
        return [1, 0, 1, 4, 2, 4, 2, 0, 3, 0, 3, 4];
    }
    if layer == 3 {
        return [0, 2, 2, 4, 4, 4, 0, 0, 2, 0, 4, 2];
    }
    if layer == 4 {
        return [0, 2, 2, 0, 4, 0, 0, 4, 2, 4, 4, 2];
    }
    if layer == 5 {
        return [0, 0, 4, 4, 4, 0, 0, 4, 0, 2, 0, 0];
    }
    [2, 0, 2, 4, 4, 4, 4, 2, 0, 2, 0, 0]
}

// How far a hatching goes beyond its rectangle: a unit where that is a point.
fn beyond_of(unit: u64, r: Rect) -> u32
    requires { unit < 536870912 }
    ensures { result ≡ beyond unit r }
{
    if r.left < r.right {
        return 0;
    }
    if r.bottom < r.top {
        return 0;
    }
    unit as u32
}

// So many fourths of a length.
fn part_of(n: u64, q: u8) -> u64
    requires { n < 17179869184 }
    ensures { (result ≡ n * q / 4) × (result < 4398046511104) }
{
    n * q as u64 / 4
}

// A coordinate moved down, and then up.
fn moved_to(a: i32, down: u32, up: u64) -> i64
    requires { up < 4398046511104 }
    ensures { result ≡ (a -ℤ pos down) +ℤ pos up }
{
    wide(a) - whole(down as u64) + whole(up)
}

// So many fourths of the way from e in front of a to e behind b.
fn fourth_of(e: u32, a: i32, b: i32, q: u8) -> i64
    ensures { result ≡ fourth e a b q }
{
    moved_to(a, e, part_of(span(a, b) + 2 * e as u64, q))
}

// So many fourths of the width.
fn across(e: u32, r: Rect, q: u8) -> i64
    ensures { result ≡ fourth e r.left r.right q }
{
    fourth_of(e, r.left, r.right, q)
}

// So many fourths of the height.
fn upward(e: u32, r: Rect, q: u8) -> i64
    ensures { result ≡ fourth e r.bottom r.top q }
{
    fourth_of(e, r.bottom, r.top, q)
}

// The points of a hatching.
fn points_in(e: u32, r: Rect, h: &[u8; 12]) -> [i64; 12]
    ensures { result ≡ points e r h.now }
{
    [
        across(e, r, h[0]),
        upward(e, r, h[1]),
        across(e, r, h[2]),
        upward(e, r, h[3]),
        across(e, r, h[4]),
        upward(e, r, h[5]),
        across(e, r, h[6]),
        upward(e, r, h[7]),
        across(e, r, h[8]),
        upward(e, r, h[9]),
        across(e, r, h[10]),
        upward(e, r, h[11]),
    ]
}

// The points of a layer's hatching in a rectangle.
pub fn points_of(unit: u64, layer: u64, r: Rect) -> [i64; 12]
    requires { unit < 536870912 }
    ensures { result ≡ points (beyond unit r) r (hatching_of layer) }
{
    let h = hatching_of(layer);
    points_in(beyond_of(unit, r), r, &h)
}
