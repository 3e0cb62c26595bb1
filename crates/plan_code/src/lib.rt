// Plans read, checked and grown: a rectangle of the cells, the causes of a plan, the cells with each layer's margin. What they are is defined in the crate
// `plan`.
//
// A shape goes by value beside the lent cells. Rectangles are read by `rect_at` alone, from all cells or from one layer's.
#![tactic(auto)]

mod checks;
mod margins;

ghost use Rattle.std.specs.Prelude.{◌≡◌, ◌+◌, ◌*◌, ◌≤◌, length, take, drop};
ghost use Rattle.lists.specs.inner.Stores.{Put};
ghost use Rattle.plan.specs.Plan.{rect_at, rect_cells};

pub use checks::{check_plan, count_of, is_drawn, sum_of};
use geometry::Rect;
pub use margins::{grow_plan, grown_cells};

// The cells of the layer that begins after `start` rectangles.
pub fn layer_cells(cells: &[i32], start: usize, size: usize) -> &[i32]
    requires { 4 * start + 4 * size ≤ length cells.now }
    ensures { result.now ≡ take (4 * size) (drop (4 * start) cells.now) }
{
    let a = 4 * start;
    let e = a + 4 * size;
    &cells[a..e]
}

// The rectangle at a place of the cells.
pub fn rect_at(cells: &[i32], place: usize) -> Rect
    requires { 4 * place + 4 ≤ length cells.now }
    ensures { result ≡ rect_at cells.now place }
{
    let at = 4 * place;
    Rect {
        left: cells[at],
        bottom: cells[at + 1],
        right: cells[at + 2],
        top: cells[at + 3],
    }
}

// A rectangle's four cells from a place on; the place behind them.
pub fn put_rect(cells: &mut [i32], at: usize, r: Rect) -> usize
    requires { at + 4 ≤ length cells.old }
    ensures { Put cells.old at (rect_cells r) cells.new result }
{
    let left = r.left;
    let bottom = r.bottom;
    let right = r.right;
    let top = r.top;
    cells[at] = left;
    cells[at + 1] = bottom;
    cells[at + 2] = right;
    cells[at + 3] = top;
    at + 4
}
