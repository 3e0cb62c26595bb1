// The plan of two layers of a plan.
ghost use Rattle.std.specs.Prelude.{◌≡◌, ◌++◌, ◌+◌, ◌*◌, ◌≤◌, ◌<◌, length, get_or};
ghost use Rattle.lists.specs.inner.Stores.{Put};
ghost use Rattle.asking.specs.Pairs.{two_shape};
ghost use Rattle.asking_runs_code.specs.Parts.{part_of, LayerThere};

use plan::Shape;
use plan_code::{layer_cells, sum_of};

// The sizes and margins of the layers at i and j.
pub fn two_shape(shape: Shape, i: usize, j: usize) -> Shape
    requires { (i < 6) × (j < 6) }
    ensures { result ≡ two_shape shape i j }
{
    let sizes = shape.sizes;
    let margins = shape.margins;
    Shape {
        k: 2,
        sizes: [sizes[i], sizes[j], 0, 0, 0, 0],
        margins: [margins[i], margins[j], 0, 0, 0, 0],
    }
}

// The cells of the layers at i and j, put at the start of a run; how many they are.
pub fn put_two(sizes: &[u32], cells: &[i32], i: usize, j: usize, run: &mut [i32]) -> usize
    requires layer_there { LayerThere sizes.now cells.now i × LayerThere sizes.now cells.now j }
    requires j_in_bounds { 4 * get_or sizes.now i 0 + 4 * get_or sizes.now j 0 ≤ length run.old }
    ensures { Put run.old 0
        (part_of sizes.now cells.now i ++ part_of sizes.now cells.now j) run.new result }
{
    let at = put_part(sizes, cells, i, run, 0);
    put_part(sizes, cells, j, run, at)
}

// The cells of the layer at i, put into a run from a place on; the place behind them.
fn put_part(sizes: &[u32], cells: &[i32], i: usize, run: &mut [i32], at: usize) -> usize
    requires layer_there { LayerThere sizes.now cells.now i }
    requires i_in_bounds { at + 4 * get_or sizes.now i 0 ≤ length run.old }
    ensures { Put run.old at (part_of sizes.now cells.now i) run.new result }
{
    let size = sizes[i] as usize;
    let start = sum_of(&sizes[..i]);
    put_cells(run, at, layer_cells(cells, start, size))
}

// Cells put into a run from a place on; the place behind them.
fn put_cells(run: &mut [i32], at: usize, part: &[i32]) -> usize
    requires { at + length part.now ≤ length run.old }
    ensures { Put run.old at part.now run.new result }
{
    let end = at + part.len();
    run[at..end].copy_from_slice(part);
    end
}
