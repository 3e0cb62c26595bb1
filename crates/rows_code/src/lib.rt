// Rows found by their places: the row call (01) and the call for a row's common ground (02, Q-7). What they answer is defined in the crate `rows`.
#![tactic(auto)]

ghost use Rattle.std.specs.Prelude.{◌≡◌, true, [], ◌∷◌, ◌+◌, ◌*◌, ◌<◌, ◌≤◌, length, take, drop};
ghost use Rattle.geometry.specs.Rectangles.{grown_by};
ghost use Rattle.plan.specs.Causes.{by_number};
ghost use Rattle.plan.specs.Plan.{rect_at, layers_of};
ghost use Rattle.plan.specs.Frames.{Framed};
ghost use Rattle.join.specs.Join.{rects};
ghost use Rattle.rows.specs.RowCall.{fits, row_call, row_values, common_call, common_values};
ghost use Rattle.rows.specs.inner.Grounds.{take_in, shared_by, ground_of, plan_named};
ghost use Rattle.rows_code.specs.Reading.{widened, Widens};

mod drawings;

pub use drawings::Drawing;
use geometry::Rect;
use geometry_code::{area, grow, meet};
use plan::{Cause, MOST_LAYERS, Shape};
use plan_code::{check_plan, layer_cells, rect_at};
use rows::{CommonGround, Ground, Row};

// What the lent cells name in the table of a plan.
pub fn row(shape: Shape, cells: &[i32], places: &[u32]) -> Result<Option<Row>, Cause>
    ensures answer { by_number result ≡ row_call shape cells.now places.now }
    ensures values { row_values (by_number result) ≡ row_values (row_call shape cells.now places.now) }
{
    match plan_named(shape, cells, places)? {
        None => Ok(None),
        Some(g) => Ok(Some(Row {
            layer: g.guard + 1,
            area: area(g.common),
        })),
    }
}

// The common ground of the row that the lent cells name in the table of a plan.
pub fn row_common(
    shape: Shape,
    cells: &[i32],
    places: &[u32],
) -> Result<Option<CommonGround>, Cause>
    ensures answer { by_number result ≡ common_call shape cells.now places.now }
    ensures values { common_values (by_number result) ≡ common_values (common_call shape cells.now places.now) }
{
    match plan_named(shape, cells, places)? {
        None => Ok(None),
        Some(g) => Ok(Some(CommonGround {
            rect: g.common,
            kind: g.kind,
        })),
    }
}

// The ground of the row that the cells name in a plan, which is checked.
fn plan_named(shape: Shape, cells: &[i32], places: &[u32]) -> Result<Option<Ground>, Cause>
    ensures { by_number result ≡ plan_named shape cells.now places.now }
{
    check_plan(shape, cells)?;
    Ok(ground_in(&Drawing::of(&shape, cells), places))
}

// The ground of the row that the cells name among the first k layers, whose cells are grown, or nothing where they name none.
pub fn row_ground(sizes: &[u32], k: usize, cells: &[i32], places: &[u32]) -> Option<Ground>
    requires { (k ≤ length sizes.now) × Framed (take k sizes.now) cells.now }
    ensures { result ≡ ground_of (layers_of (take k sizes.now) cells.now) places.now }
{
    let none = [0u32; MOST_LAYERS];
    let drawing = Drawing {
        sizes: &sizes[..k],
        margins: &none,
        cells,
    };
    ground_in(&drawing, places)
}

// The k cells from a place of the table on.
pub fn row_at(table: &[u32], start: usize, k: usize) -> &[u32]
    requires { start + k ≤ length table.now }
    ensures { (result.now ≡ take k (drop start table.now)) × (start + k ≤ length table.now) }
{
    let e = start + k;
    &table[start..e]
}

// The ground of the row that the cells name.
pub fn ground_in(drawing: &Drawing, row: &[u32]) -> Option<Ground>
    ensures { let ns = drawing.now.sizes.now in
        result ≡ ground_of (layers_of ns (widened ns drawing.now.margins.now drawing.now.cells.now)) row.now }
{
    if !all_fit(drawing.sizes, row) {
        return None;
    }
    share(drawing, row)
}

// One place for each size, below it.
pub fn all_fit(sizes: &[u32], row: &[u32]) -> bool
    ensures { result ≡ fits sizes.now row.now }
{
    row.len() == sizes.len() && row.iter().zip(sizes).all(|(place, size)| place < size)
}

// What the rectangles of a row that fits share.
fn share(drawing: &Drawing, row: &[u32]) -> Option<Ground>
    requires { fits drawing.now.sizes.now row.now ≡ true }
    ensures { let ns = drawing.now.sizes.now in
        result ≡ shared_by (rects (layers_of ns (widened ns drawing.now.margins.now drawing.now.cells.now)) row.now) }
{
    let sizes = drawing.sizes;
    let mut g = alone(drawing.rect(row, 0, 0))?;
    let mut start = sizes[0] as usize;
    for j in 1..sizes.len() {
        g = take_in(g, drawing.rect(row, start, j), j as u32)?;
        start += sizes[j] as usize;
    }
    Some(g)
}

// The ground of one rectangle: what it has in common with itself.
fn alone(r: Rect) -> Option<Ground>
    ensures { result ≡ shared_by (r ∷ []) }
{
    let (common, kind) = meet(r, r)?;
    Some(Ground {
        common,
        kind,
        guard: 0,
    })
}

// The ground with the rectangle of one layer more.
fn take_in(g: Ground, r: Rect, layer: u32) -> Option<Ground>
    ensures { result ≡ take_in g r layer }
{
    let c = g.common;
    let (common, kind) = meet(c, r)?;
    let guard = if c.left < r.left { layer } else { g.guard };
    Some(Ground {
        common,
        kind,
        guard,
    })
}

// The rectangle at a place of the layer that begins after `start` rectangles, grown by a margin.
pub fn grown_in(cells: &[i32], start: usize, size: usize, place: usize, margin: u32) -> Rect
    requires { (4 * start + 4 * size ≤ length cells.now) × ((place < size)
        × Widens (rect_at (take (4 * size) (drop (4 * start) cells.now)) place) margin) }
    ensures { result ≡ grown_by margin (rect_at (take (4 * size) (drop (4 * start) cells.now)) place) }
{
    let r = rect_at(layer_cells(cells, start, size), place);
    if margin == 0 {
        return r;
    }
    grow(r, margin)
}
