// The class of a row whose last two rectangles are segments (02, Q-2), and the checks 15 and 16. What they are is defined in the crate `crossings`.
#![tactic(auto)]

ghost use Rattle.std.specs.Prelude.{◌≡◌, ℕ, [], true, ◌+◌, ◌*◌, ◌<◌, ◌≤◌, length, get_or};
ghost use Rattle.plan.specs.Causes.{refusal, read_by, by_number};
ghost use Rattle.plan.specs.Plan.{rect_at, layers_of};
ghost use Rattle.plan.specs.Frames.{Framed};
ghost use Rattle.join.specs.Join.{rects, common_of};
ghost use Rattle.rows.specs.RowCall.{is_row};
ghost use Rattle.rows_code.specs.Reading.{widened};
ghost use Rattle.crossings.specs.Crossings.{covers, class_in};
ghost use Rattle.crossings.specs.ClassCall.{lies, segmented, unwidened, crossing_cause, class_call, class_values};
ghost use Rattle.crossings.specs.inner.Ends.{end_in, all_lie, class_told};
ghost use Rattle.crossings_code.specs.Lies.{is_level};

use geometry::Rect;
use plan::{Cause, Shape};
use plan_code::{check_plan, rect_at, sum_of};
use rows_code::{Drawing, ground_in};

// How a segment lies.
#[derive(Clone, Copy)]
enum Lie {
    Level,
    Upright,
}

// The class of the row that the lent cells name in the table of a plan.
pub fn class_of(shape: Shape, cells: &[i32], places: &[u32]) -> Result<Option<u32>, Cause>
    ensures answer { by_number result ≡ class_call shape cells.now places.now }
    ensures values { class_values (by_number result) ≡ class_values (class_call shape cells.now places.now) }
{
    check_segments(shape, cells)?;
    Ok(class_told(&Drawing::of(&shape, cells), places))
}

// The class of the row that the cells name.
fn class_told(drawing: &Drawing, row: &[u32]) -> Option<u32>
    requires { 3 ≤ length drawing.now.sizes.now }
    ensures { let ns = drawing.now.sizes.now in
        result ≡ class_told (layers_of ns (widened ns drawing.now.margins.now drawing.now.cells.now)) row.now }
{
    ground_in(drawing, row)?;
    Some(row_class(drawing, row))
}

// The first of the causes 1 2 17 3 4 15 16 that applies.
pub fn check_segments(shape: Shape, cells: &[i32]) -> Result<(), Cause>
    ensures { refusal result ≡ crossing_cause shape cells.now }
{
    check_plan(shape, cells)?;
    if shape.k < 3 {
        return Err(Cause::FewLayers);
    }
    if !is_unwidened(&shape.margins, shape.k as usize) {
        return Err(Cause::WrongSegment);
    }
    let k = shape.k as usize;
    if !is_segmented(&shape.sizes[..k], cells) {
        return Err(Cause::WrongSegment);
    }
    Ok(())
}

// Layers k - 1 and k have no margin.
fn is_unwidened(margins: &[u32], k: usize) -> bool
    requires { (3 ≤ k) × (k ≤ length margins.now) }
    ensures { result ≡ unwidened margins.now k }
{
    let h = margins[k - 2];
    let v = margins[k - 1];
    (h == 0) & (v == 0)
}

// The last layer but one holds horizontal segments and the last one vertical ones.
fn is_segmented(sizes: &[u32], cells: &[i32]) -> bool
    requires { Framed sizes.now cells.now }
    ensures { result ≡ segmented (layers_of sizes.now cells.now) }
{
    let i = sizes.len() - 2;
    let j = sizes.len() - 1;
    let h = sum_of(&sizes[..i]);
    let v = sum_of(&sizes[..j]);
    all_lie(cells, h, sizes[i] as usize, Lie::Level)
        && all_lie(cells, v, sizes[j] as usize, Lie::Upright)
}

// The `size` rectangles behind the first `start` are segments that lie so. By hand, since the proof of the range's `all` did not close.
fn all_lie(cells: &[i32], start: usize, size: usize, lie: Lie) -> bool
    requires { 4 * start + 4 * size ≤ length cells.now }
    ensures { result ≡ all_lie (is_level lie) size (λ p. rect_at cells.now (start + p)) }
{
    for i in 0..size {
        if !is_segment(rect_at(cells, start + i), lie) {
            return false;
        }
    }
    true
}

fn is_segment(r: Rect, lie: Lie) -> bool
    ensures { result ≡ lies (is_level lie) r }
{
    match lie {
        Lie::Level => r.bottom == r.top,
        Lie::Upright => r.left == r.right,
    }
}

// The class of a row of the layers' join.
pub fn row_class(drawing: &Drawing, row: &[u32]) -> u32
    requires three { 3 ≤ length drawing.now.sizes.now }
    requires row_value { let ns = drawing.now.sizes.now in
        is_row (layers_of ns (widened ns drawing.now.margins.now drawing.now.cells.now)) row.now ≡ true }
    ensures { let ns = drawing.now.sizes.now in
        result ≡ class_in (layers_of ns (widened ns drawing.now.margins.now drawing.now.cells.now)) row.now }
{
    let k = drawing.sizes.len();
    let h = rect_in(drawing, row, k - 2);
    let v = rect_in(drawing, row, k - 1);
    for j in 0..k - 2 {
        let e = end_in(rect_in(drawing, row, j), h, v);
        if e != 0 {
            return 4 * (j as u32) + e;
        }
    }
    0
}

// The grown rectangle of layer j, counted from 0, in a row of the layers' join.
fn rect_in(drawing: &Drawing, row: &[u32], j: usize) -> Rect
    requires j_in_bounds { j < length drawing.now.sizes.now }
    requires row_value { let ns = drawing.now.sizes.now in
        is_row (layers_of ns (widened ns drawing.now.margins.now drawing.now.cells.now)) row.now ≡ true }
    ensures { let ns = drawing.now.sizes.now in
        result ≡ get_or (rects (layers_of ns (widened ns drawing.now.margins.now drawing.now.cells.now)) row.now) j (common_of []) }
{
    let start = sum_of(&drawing.sizes[..j]);
    drawing.rect(row, start, j)
}

// The first of the four ends of two segments that the rectangle covers: 1 left, 2 right, 3 bottom, 4 top, 0 for none.
fn end_in(r: Rect, h: Rect, v: Rect) -> u32
    ensures { result ≡ end_in r h v }
{
    if covers_point(r, h.left, h.bottom) {
        return 1;
    }
    if covers_point(r, h.right, h.top) {
        return 2;
    }
    if covers_point(r, v.left, v.bottom) {
        return 3;
    }
    if covers_point(r, v.right, v.top) {
        return 4;
    }
    0
}

// The point lies in the rectangle, on an edge or a corner too.
fn covers_point(r: Rect, x: i32, y: i32) -> bool
    ensures { result ≡ covers r x y }
{
    (r.left <= x) & (x <= r.right) & (r.bottom <= y) & (y <= r.top)
}

// The class in a class call's answer: 17 where there is no row, 0 for a refusal.
pub fn class_cell<E: Copy>(answer: Result<Option<u32>, E>) -> u32
    ensures { (f : E → ℕ) → result ≡ (class_values (read_by f answer)).class }
{
    match answer {
        Err(_) => 0,
        Ok(None) => 17,
        Ok(Some(class)) => class,
    }
}
