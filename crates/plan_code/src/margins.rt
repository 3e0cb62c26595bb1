// The grown plan: each rectangle moved out by its layer's margin, before anything compares it.
ghost use Rattle.std.specs.Prelude.{◌+◌, ◌*◌, ◌≤◌, length, take};
ghost use Rattle.lists.specs.inner.Stores.{Put};
ghost use Rattle.geometry.specs.Rectangles.{most_margin};
ghost use Rattle.plan.specs.Plan.{rect_at, layers_of, grown_from, grown_layers, Sound};
ghost use Rattle.plan.specs.Limits.{most_cells};
ghost use Rattle.plan.specs.inner.Growth.{Growable, InReach, Grown};
ghost use Rattle.plan_code.specs.Copies.{GrownCells};

use crate::{layer_cells, put_rect, rect_at};
use geometry_code::grow;
use plan::Shape;

// Puts the cells of the grown plan at the start of a run.
pub fn grow_plan(shape: Shape, cells: &[i32], run: &mut [i32])
    requires { Sound shape cells.now × (most_cells ≤ length run.old) }
    ensures { Grown shape cells.now run.new }
{
    grow_layers(&shape.sizes, &shape.margins, shape.k as usize, cells, run);
}

// The cells of the grown plan, made in a run.
pub fn grown_cells<'a>(shape: Shape, cells: &[i32], run: &'a mut [i32]) -> &'a mut [i32]
    requires { Sound shape cells.now × (most_cells ≤ length run.old) }
    ensures { GrownCells shape cells.now result.now }
{
    grow_plan(shape, cells, run);
    let n = cells.len();
    &mut run[..n]
}

// Puts the grown cells of the first k layers into a run, from its first cell on; the place behind them.
fn grow_layers<'a>(
    sizes: &'a [u32],
    margins: &'a [u32],
    k: usize,
    cells: &[i32],
    run: &mut [i32],
) -> usize
    requires { Growable sizes.now margins.now k cells.now (length run.old) }
    ensures { let ls = layers_of (take k sizes.now) cells.now in
        Put run.old 0 (grown_layers margins.now 0 ls) run.new result }
{
    let mut at: usize = 0;
    let mut start: usize = 0;
    for j in 0..k {
        let size = sizes[j] as usize;
        at = grow_layer(layer_cells(cells, start, size), size, margins[j], run, at);
        start += size;
    }
    at
}

// Puts the grown cells of a layer into a run from a place on; the place behind them.
fn grow_layer(cells: &[i32], size: usize, margin: u32, run: &mut [i32], at: usize) -> usize
    requires in_reach { InReach cells.now size × (margin ≤ most_margin) }
    requires size_in_bounds { at + 4 * size ≤ length run.old }
    ensures { Put run.old at (grown_from margin (rect_at cells.now) 0 size) run.new result }
{
    let mut to = at;
    for p in 0..size {
        to = put_rect(run, to, grow(rect_at(cells, p), margin));
    }
    to
}
