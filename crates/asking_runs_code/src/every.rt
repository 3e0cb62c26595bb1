// The rows of each two layers that are asked for, listed.
ghost use Rattle.std.specs.Prelude.{◌≡◌, ◌<◌};
ghost use Rattle.plan.specs.Plan.{Sound};
ghost use Rattle.asking.specs.Pairs.{asked, rows_with, pair_rows};
ghost use Rattle.asking.specs.Lines.{two_line};
ghost use Rattle.asking_runs_code.specs.Listing.{rows_asked, Lent, Listable, Lists};

use crate::Listed;
use crate::listing::list_two;
use plan::Shape;

// The rows of each two layers of a sound plan that are asked for, listed from the start of a buffer.
pub fn list_all(
    shape: Shape,
    cells: &[i32],
    layer: u32,
    table: &mut [u32],
    work: &mut [i32],
    out: &mut [u8],
    from: Listed,
) -> Listed
    requires sound { Sound shape cells.now × Lent table.old work.old }
    requires listable { Listable (two_line shape cells.now) (pair_rows shape cells.now layer) out.old from }
    ensures { Lists (two_line shape cells.now) (pair_rows shape cells.now layer) out.old from out.new result }
{
    let k = shape.k as usize;
    let mut listed = from;
    for i in 0..k {
        listed = list_with(shape, cells, layer, i, table, work, out, listed);
    }
    listed
}

// The rows of the layer at i with each later one that is asked for.
fn list_with(
    shape: Shape,
    cells: &[i32],
    layer: u32,
    i: usize,
    table: &mut [u32],
    work: &mut [i32],
    out: &mut [u8],
    from: Listed,
) -> Listed
    requires sound { Sound shape cells.now × (i < shape.k) × Lent table.old work.old }
    requires listable { Listable (two_line shape cells.now) (rows_with shape cells.now layer i) out.old from }
    ensures { Lists (two_line shape cells.now) (rows_with shape cells.now layer i) out.old from out.new result
        × Lent table.new work.new }
{
    let k = shape.k as usize;
    let mut listed = from;
    for j in i + 1..k {
        listed = list_asked(shape, cells, layer, i, j, table, work, out, listed);
    }
    listed
}

// The rows of the layers at i and j, where they are asked for.
fn list_asked(
    shape: Shape,
    cells: &[i32],
    layer: u32,
    i: usize,
    j: usize,
    table: &mut [u32],
    work: &mut [i32],
    out: &mut [u8],
    from: Listed,
) -> Listed
    requires sound { Sound shape cells.now × (i < shape.k) × (j < shape.k) × Lent table.old work.old }
    requires listable { Listable (two_line shape cells.now) (rows_asked shape cells.now layer i j) out.old from }
    ensures { Lists (two_line shape cells.now) (rows_asked shape cells.now layer i j) out.old from out.new result
        × Lent table.new work.new }
{
    if !is_asked(layer, i, j) {
        return from;
    }
    list_two(shape, cells, i, j, table, work, out, from)
}

// Whether the layers at i and j are asked for.
fn is_asked(layer: u32, i: usize, j: usize) -> bool
    requires { (i < 6) × (j < 6) }
    ensures { result ≡ asked layer i j }
{
    let n = layer as usize;
    n == 0 || (n == i + 1 || n == j + 1)
}
