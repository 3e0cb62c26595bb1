// The rows of two layers of a plan, listed.
ghost use Rattle.std.specs.Prelude.{◌≡◌, ◌≤◌, ◌<◌, length};
ghost use Rattle.plan.specs.Causes.{by_number};
ghost use Rattle.plan.specs.Plan.{count, grown, layers, Sound};
ghost use Rattle.sweep.specs.Sweep.{sweep_order};
ghost use Rattle.rows.specs.Tables.{rows_in};
ghost use Rattle.rows.specs.inner.TableRows.{TableRows};
ghost use Rattle.lists.specs.inner.Stores.{Put};
ghost use Rattle.printing.specs.inner.Parts.{FitsAt};
ghost use Rattle.asking.specs.Pairs.{rows_of_two};
ghost use Rattle.asking.specs.Lines.{two_line};
ghost use Rattle.asking_runs_code.specs.Parts.{lines_of_two};
ghost use Rattle.asking_runs_code.specs.Listing.{Lent, Listable, Lists, Twofold, TwoListable, TwoListed, Ran};

use crate::Listed;
use crate::lines::put_pair_rows;
use crate::two::{put_two, two_shape};
use paging::Done;
use pens::Pen;
use plan::{Cause, MOST_CELLS, MOST_RECTS, Shape};
use plan_code::grow_plan;
use runner::run_all;
use sweep_code::make_order;

// The cells of the largest plan of two layers.
const TWO_CELLS: usize = 4096;

// The rows of the layers at i and j of a sound plan, listed behind what is listed so far.
pub fn list_two(
    shape: Shape,
    cells: &[i32],
    i: usize,
    j: usize,
    table: &mut [u32],
    work: &mut [i32],
    out: &mut [u8],
    from: Listed,
) -> Listed
    requires sound { Sound shape cells.now × (i < shape.k) × (j < shape.k) × Lent table.old work.old }
    requires listable { Listable (two_line shape cells.now) (rows_of_two shape cells.now i j) out.old from }
    ensures { Lists (two_line shape cells.now) (rows_of_two shape cells.now i j) out.old from out.new result
        × Lent table.new work.new }
{
    let mut run = [0i32; TWO_CELLS];
    let n = put_two(&shape.sizes, cells, i, j, &mut run);
    list_plan(
        two_shape(shape, i, j),
        &run[..n],
        i as u32,
        j as u32,
        table,
        work,
        out,
        from,
    )
}

// The rows of a sound plan of two layers, which are at `lower` and `higher`.
fn list_plan(
    shape: Shape,
    cells: &[i32],
    lower: u32,
    higher: u32,
    table: &mut [u32],
    work: &mut [i32],
    out: &mut [u8],
    from: Listed,
) -> Listed
    requires { Twofold shape cells.now lower higher × Lent table.old work.old × TwoListable shape cells.now lower higher out.old from }
    ensures { TwoListed shape cells.now lower higher out.old from out.new result
        × Lent table.new work.new }
{
    let mut order = [0u32; MOST_RECTS];
    let n = cells.len() / 4;
    list_sound(
        shape,
        cells,
        lower,
        higher,
        &mut order[..n],
        table,
        work,
        out,
        from,
    )
}

// The same, with a buffer for the order that is as long as the order.
fn list_sound(
    shape: Shape,
    cells: &[i32],
    lower: u32,
    higher: u32,
    order: &mut [u32],
    table: &mut [u32],
    work: &mut [i32],
    out: &mut [u8],
    from: Listed,
) -> Listed
    requires twofold { Twofold shape cells.now lower higher × Lent table.old work.old × TwoListable shape cells.now lower higher out.old from }
    requires order_len { length order.old ≡ count cells.now }
    ensures { TwoListed shape cells.now lower higher out.old from out.new result
        × Lent table.new work.new }
{
    let _ = make_order(shape, cells, order);
    list_ordered(shape, cells, lower, higher, order, table, work, out, from)
}

// The same, with the order.
fn list_ordered(
    shape: Shape,
    cells: &[i32],
    lower: u32,
    higher: u32,
    order: &[u32],
    table: &mut [u32],
    work: &mut [i32],
    out: &mut [u8],
    from: Listed,
) -> Listed
    requires twofold { Twofold shape cells.now lower higher × Lent table.old work.old × TwoListable shape cells.now lower higher out.old from }
    requires order_value { order.now ≡ sweep_order (grown shape cells.now) }
    ensures { TwoListed shape cells.now lower higher out.old from out.new result
        × Lent table.new work.new }
{
    let run = run_all(shape, cells, order, table, work);
    list_run(run, shape, cells, lower, higher, table, out, from)
}

// What the whole run answered, and the table that it left. It is never refused.
fn list_run(
    run: Result<Done, Cause>,
    shape: Shape,
    cells: &[i32],
    lower: u32,
    higher: u32,
    table: &[u32],
    out: &mut [u8],
    from: Listed,
) -> Listed
    requires { Twofold shape cells.now lower higher × TwoListable shape cells.now lower higher out.old from
        × Ran shape cells.now (by_number run) table.now }
    ensures { TwoListed shape cells.now lower higher out.old from out.new result }
{
    match run {
        Err(_) => from,
        Ok(done) => {
            let rows = done.rows;
            let all = from.rows + rows;
            let at = put_grown(out, from.at, shape, cells, table, rows, lower, higher);
            Listed { at, rows: all }
        }
    }
}

// The lines of the rows that the table of a sound plan has; the place behind them. `Listed` carries a place through the loops over layers.
fn put_grown(
    out: &mut [u8],
    at: usize,
    shape: Shape,
    cells: &[i32],
    table: &[u32],
    rows: u32,
    lower: u32,
    higher: u32,
) -> usize
    requires sound { Sound shape cells.now × TableRows shape.sizes shape.k (grown shape cells.now) table.now rows
        × (lower ≤ 5) × (higher ≤ 5) }
    requires fits_at { FitsAt out.old at (lines_of_two (layers shape cells.now) lower higher (rows_in shape.k rows table.now)) }
    ensures { Put out.old at (lines_of_two (layers shape cells.now) lower higher (rows_in shape.k rows table.now))
        out.new result }
{
    let mut run = [0i32; MOST_CELLS];
    grow_plan(shape, cells, &mut run);
    let n = cells.len();
    let mut pen = Pen { buf: out, at };
    put_pair_rows(
        &mut pen,
        &shape.sizes,
        shape.k as usize,
        &run[..n],
        table,
        rows as usize,
        lower,
        higher,
    );
    pen.at
}
