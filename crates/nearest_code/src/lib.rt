// What lies nearest to a box in each layer of a plan (02, Q-1). What the call answers is defined in the crate `nearest`.
//
// Rectangles are reached by the plan's layers alone. After the checks they are grown, where a layer has a margin, and then each is looked at once.
#![tactic(auto)]

ghost use Rattle.std.specs.Prelude.{◌≡◌, ℕ, true, ◌*◌, ◌<◌};
ghost use Rattle.geometry.specs.Rectangles.{in_range, in_extent};
ghost use Rattle.plan.specs.Causes.{refusal, read_by, by_number};
ghost use Rattle.plan.specs.Plan.{rect_at, layers_of};
ghost use Rattle.plan.specs.Spots.{layer_at};
ghost use Rattle.plan.specs.Frames.{Framed};
ghost use Rattle.nearest.specs.Nearest.{axis_gap, squared_gap, nearest_in, nearest_of, nearest_cause, nearest_call, nearest_values, near_cells, entry_cells};
ghost use Rattle.nearest.specs.inner.Parts.{Part, Within};

use geometry::Rect;
use geometry_code::{in_range, span};
use nearest::Near;
use plan::{Cause, MOST_CELLS, MOST_LAYERS, Shape};
use plan_code::{check_plan, grown_cells, is_drawn, layer_cells, rect_at, sum_of};

// What lies nearest to a box in each layer.
pub fn nearest(
    shape: Shape,
    cells: &[i32],
    around: Rect,
) -> Result<[Option<Near>; MOST_LAYERS], Cause>
    ensures { by_number result ≡ nearest_call shape cells.now around }
{
    check_box(shape, cells, around)?;
    let k = shape.k as usize;
    let sizes = &shape.sizes[..k];
    if is_drawn(shape) {
        return Ok(nearest_told(sizes, cells, around));
    }
    let mut run = [0i32; MOST_CELLS];
    let grown = grown_cells(shape, cells, &mut run);
    Ok(nearest_told(sizes, grown, around))
}

// An answer as cells, three for each layer: whether anything was found (0 or 1), its place, the squared gap.
pub fn near_cells<E: Copy>(answer: Result<[Option<Near>; MOST_LAYERS], E>) -> [u64; 18]
    ensures { (f : E → ℕ) → result ≡ near_cells (nearest_values (read_by f answer)) }
{
    match answer {
        Ok(layers) => six_cells(layers),
        Err(_) => [0; 18],
    }
}

// The cells of six entries.
fn six_cells(layers: [Option<Near>; MOST_LAYERS]) -> [u64; 18]
    ensures { result ≡ near_cells (nearest_values (Ok layers)) }
{
    let a = entry_cells(layers[0]);
    let b = entry_cells(layers[1]);
    let c = entry_cells(layers[2]);
    let d = entry_cells(layers[3]);
    let e = entry_cells(layers[4]);
    let f = entry_cells(layers[5]);
    [
        a[0], a[1], a[2], b[0], b[1], b[2], c[0], c[1], c[2], d[0], d[1], d[2], e[0], e[1], e[2],
        f[0], f[1], f[2],
    ]
}

// The cells of one entry.
fn entry_cells(entry: Option<Near>) -> [u64; 3]
    ensures { result ≡ entry_cells entry }
{
    match entry {
        Some(near) => [1, u64::from(near.place), near.gap],
        None => [0; 3],
    }
}

// The first of the causes 1 2 17 3 4 14 that applies.
fn check_box(shape: Shape, cells: &[i32], around: Rect) -> Result<(), Cause>
    ensures { refusal result ≡ nearest_cause shape cells.now around }
{
    check_plan(shape, cells)?;
    if !in_range(around) {
        return Err(Cause::WrongBox);
    }
    Ok(())
}

// What lies nearest in each of six layers, of which there are as many as sizes.
fn nearest_told(sizes: &[u32], cells: &[i32], around: Rect) -> [Option<Near>; MOST_LAYERS]
    requires framed { Framed sizes.now cells.now }
    requires around_value { in_range around ≡ true }
    ensures { result ≡ nearest_of (layers_of sizes.now cells.now) around }
{
    let a = nearest_at(sizes, cells, 0, around);
    let b = nearest_at(sizes, cells, 1, around);
    let c = nearest_at(sizes, cells, 2, around);
    let d = nearest_at(sizes, cells, 3, around);
    let e = nearest_at(sizes, cells, 4, around);
    let f = nearest_at(sizes, cells, 5, around);
    [a, b, c, d, e, f]
}

// What lies nearest in the layer at j, counted from 0: nothing where there is no such layer.
fn nearest_at(sizes: &[u32], cells: &[i32], j: usize, around: Rect) -> Option<Near>
    requires framed { Framed sizes.now cells.now }
    requires around_value { in_range around ≡ true }
    ensures { result ≡ nearest_in around (layer_at (layers_of sizes.now cells.now) j) }
{
    if j >= sizes.len() {
        return None;
    }
    let start = sum_of(&sizes[..j]);
    let size = sizes[j] as usize;
    nearest_among(layer_cells(cells, start, size), size, around)
}

// What lies nearest among the rectangles of a layer. A rectangle that is no nearer along one axis alone is passed over.
fn nearest_among(cells: &[i32], size: usize, around: Rect) -> Option<Near>
    requires part { Part cells.now size }
    requires around_value { in_range around ≡ true }
    ensures { result ≡ nearest_in around (record { size = size; rect = rect_at cells.now }) }
{
    if size == 0 {
        return None;
    }
    let mut least = squared_gap(around, rect_at(cells, 0));
    let mut place: usize = 0;
    for p in 1..size {
        let gap = gap_within(around, rect_at(cells, p), least);
        if gap < least {
            least = gap;
            place = p;
        }
    }
    Some(Near {
        place: place as u32,
        gap: least,
    })
}

// The squared gap between a box and a rectangle.
fn squared_gap(a: Rect, r: Rect) -> u64
    requires a_value { in_range a ≡ true }
    requires r_value { in_extent r ≡ true }
    ensures { result ≡ squared_gap a r }
{
    let x = axis_gap(a.left, a.right, r.left, r.right);
    let y = axis_gap(a.bottom, a.top, r.bottom, r.top);
    x * x + y * y
}

// The squared gap between a box and a rectangle, or the smallest so far, where the gap along one axis shows that it is no less.
fn gap_within(a: Rect, r: Rect, least: u64) -> u64
    requires a_value { in_range a ≡ true }
    requires r_value { in_extent r ≡ true }
    ensures { Within least (squared_gap a r) result }
{
    let x = axis_gap(a.left, a.right, r.left, r.right);
    let across = x * x;
    if least <= across {
        return least;
    }
    let y = axis_gap(a.bottom, a.top, r.bottom, r.top);
    across + y * y
}

// The gap between two extents of one axis.
fn axis_gap(low: i32, high: i32, from: i32, to: i32) -> u64
    ensures { (result ≡ axis_gap low high from to) × (result < 4294967296) }
{
    if high < from {
        return span(high, from);
    }
    if to < low {
        return span(to, low);
    }
    0
}
