// The picture of a sound plan and the rows of its table.
ghost use Rattle.std.specs.Prelude.{◌≡◌, length};
ghost use Rattle.plan.specs.Plan.{grown, layers_of, sizes_of, layers, Sound};
ghost use Rattle.lists.specs.inner.Stores.{Put};
ghost use Rattle.rows.specs.Tables.{rows_in};
ghost use Rattle.rows.specs.inner.TableRows.{TableRows};
ghost use Rattle.printing.specs.inner.Parts.{FitsAt};
ghost use Rattle.picture.specs.Frames.{ground_of, frame_of};
ghost use Rattle.picture.specs.Pictures.{picture_of};

use crate::frames::{frame_of, ground_of};
use crate::whole::put_picture;
use plan::{MOST_CELLS, Shape};
use plan_code::grow_plan;

// The picture of a sound plan and the rows of its table; its length.
pub fn put_plan(out: &mut [u8], shape: Shape, cells: &[i32], table: &[u32], rows: u32) -> usize
    requires sound { Sound shape cells.now × TableRows shape.sizes shape.k (grown shape cells.now) table.now rows
        × (rows ≡ length (rows_in shape.k rows table.now)) }
    requires fits_at { FitsAt out.old 0
        (picture_of (frame_of (ground_of (grown shape cells.now))) shape.margins (layers_of (sizes_of shape) cells.now) (layers shape cells.now)
        (rows_in shape.k rows table.now)) }
    ensures { Put out.old 0
        (picture_of (frame_of (ground_of (grown shape cells.now))) shape.margins (layers_of (sizes_of shape) cells.now)
        (layers shape cells.now) (rows_in shape.k rows table.now)) out.new result }
{
    let mut run = [0i32; MOST_CELLS];
    grow_plan(shape, cells, &mut run);
    let n = cells.len();
    put_over(out, shape, cells, &run[..n], table, rows)
}

// The same, with the grown cells.
fn put_over(
    out: &mut [u8],
    shape: Shape,
    cells: &[i32],
    run: &[i32],
    table: &[u32],
    rows: u32,
) -> usize
    requires sound { Sound shape cells.now × (run.now ≡ grown shape cells.now) × TableRows shape.sizes shape.k run.now table.now rows
        × (rows ≡ length (rows_in shape.k rows table.now)) }
    requires fits_at { FitsAt out.old 0
        (picture_of (frame_of (ground_of run.now)) shape.margins (layers_of (sizes_of shape) cells.now) (layers_of (sizes_of shape) run.now)
        (rows_in shape.k rows table.now)) }
    ensures { Put out.old 0
        (picture_of (frame_of (ground_of run.now)) shape.margins (layers_of (sizes_of shape) cells.now)
        (layers_of (sizes_of shape) run.now) (rows_in shape.k rows table.now)) out.new result }
{
    let frame = frame_of(ground_of(run));
    put_picture(out, frame, shape, cells, run, table, rows)
}
