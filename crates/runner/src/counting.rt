// The ground of a whole run's rows: all of it, each part once.
ghost use Rattle.std.specs.Prelude.{◌≡◌, true, ◌*◌, ◌≤◌, length};
ghost use Rattle.plan.specs.Plan.{layers_of, sizes_of};
ghost use Rattle.ground.specs.Union.{union_of, grounds};
ghost use Rattle.rows.specs.Tables.{rows_in};
ghost use Rattle.runner.specs.Runs.{Listed, Lent, Rows, Swept, run_on};

use crate::passes::Listing;
use ground_code::union_of_table;
use overlap_code::union_of_layers;
use paging::Done;
use plan::Shape;
use slots::Walk;
use totals::{add, nothing};

// Fewer rows than rectangles and this many more are counted row by row: they take no longer than the lines and reaches of all strips.
const FEW_ROWS: usize = 5000;

// What a whole run has done, with the ground of its rows counted once.
pub fn with_ground(
    listing: Listing,
    walk: &Walk,
    shape: Shape,
    table: &[u32],
    work: &mut [i32],
) -> Done
    requires listed { Listed walk.now.frame.timed shape.sizes shape.k walk.now.cells.now (Ok listing) table.now × Lent (Ok listing) (length work.old) }
    requires swept { Swept walk.now.frame shape.sizes shape.k walk.now.cells.now walk.now.order.now }
    ensures { Ok result ≡ run_on shape.sizes shape.k walk.now.cells.now table.now (Ok listing) }
{
    let rows = listing.rows;
    let area = listing.area;
    let ground = ground_of(walk, shape, table, rows, work);
    Done {
        rows,
        probes: listing.probes,
        area,
        ground: add(nothing(), ground),
    }
}

// The ground of a run's rows: by layers where they are all rows of the plan, clearly more than its rectangles, and the work buffer has a cell for each layer
// and strip; else row by row.
fn ground_of(walk: &Walk, shape: Shape, table: &[u32], rows: u32, work: &mut [i32]) -> u64
    requires rows { Rows walk.now.frame.timed shape.sizes shape.k walk.now.cells.now table.now rows
        × (2 * rows ≤ length work.old) }
    requires swept { Swept walk.now.frame shape.sizes shape.k walk.now.cells.now walk.now.order.now }
    ensures { result ≡ union_of (grounds (layers_of (sizes_of shape) walk.now.cells.now) (rows_in shape.k rows table.now)) }
{
    if walk.frame.timed {
        return by_rows(shape, walk.cells, table, rows, work);
    }
    let n = walk.order.len();
    if (rows as usize) < n + FEW_ROWS {
        return by_rows(shape, walk.cells, table, rows, work);
    }
    if work.len() < walk.frame.k * (2 * n + 1) {
        return by_rows(shape, walk.cells, table, rows, work);
    }
    union_of_layers(walk, work)
}

// The ground of the rows in the table, row by row in the cells of the work buffer.
fn by_rows(shape: Shape, cells: &[i32], table: &[u32], rows: u32, work: &mut [i32]) -> u64
    requires { Rows true shape.sizes shape.k cells.now table.now rows
        × (2 * rows ≤ length work.old) }
    ensures { result ≡ union_of (grounds (layers_of (sizes_of shape) cells.now) (rows_in shape.k rows table.now)) }
{
    let n = 2 * rows as usize;
    union_of_table(
        &shape.sizes,
        shape.k as usize,
        cells,
        table,
        rows,
        &mut work[..n],
    )
}
