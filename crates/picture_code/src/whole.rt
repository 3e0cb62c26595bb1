// A whole picture, drawn.
#![tactic(auto, using(pens::proofs::Pens::writing))]

ghost use Rattle.std.specs.Prelude.{◌≡◌, ◌++◌, take};
ghost use Rattle.lists.specs.inner.Stores.{Put};
ghost use Rattle.pens.specs.Pens.{RoomFor, wrote};
ghost use Rattle.plan.specs.Plan.{layers_of};
ghost use Rattle.rows.specs.Tables.{rows_in};
ghost use Rattle.rows.specs.inner.TableRows.{TableRows};
ghost use Rattle.printing.specs.inner.Parts.{FitsAt};
ghost use Rattle.picture.specs.Templates.{fill};
ghost use Rattle.picture.specs.Texts.{head_text};
ghost use Rattle.picture.specs.Pictures.{seen};
ghost use Rattle.picture.specs.inner.Parts.{Small, LayersDrawable, top_part, body_part};

use crate::fill::put_filled;
use crate::layers::put_layers;
use crate::numbers::moved_by;
use crate::row_marks::put_rows;
use crate::texts::{head_text, rows_text, tail_text};
use crate::views::{scale_of, seen_of};
use pens::Pen;
use picture::Frame;
use plan::Shape;

// What stands on top of the layers: the first n rows of a table, and the tail.
fn put_top(
    pen: &mut Pen,
    frame: Frame,
    sizes: &[u32],
    k: usize,
    cells: &[i32],
    table: &[u32],
    n: u32,
)
    requires small { Small frame × TableRows sizes.now k cells.now table.now n }
    requires room { RoomFor pen.old (top_part frame (layers_of (take k sizes.now) cells.now) (rows_in k n table.now) n) }
    ensures { pen.new ≡ wrote pen.old (top_part frame (layers_of (take k sizes.now) cells.now) (rows_in k n table.now) n) }
{
    put_filled(pen, &rows_text(), &moved_by(frame));
    put_rows(pen, frame.unit, sizes, k, cells, table, n as usize);
    put_filled(pen, &tail_text(), &scale_of(frame, n));
}

// The head, the layers as they are drawn, and what stands on top of them.
fn put_all(
    pen: &mut Pen,
    frame: Frame,
    shape: Shape,
    drawn: &[i32],
    grown: &[i32],
    table: &[u32],
    n: u32,
)
    requires small { Small frame × LayersDrawable shape.sizes shape.margins shape.k drawn.now }
    requires table_rows { TableRows shape.sizes shape.k grown.now table.now n }
    requires room { RoomFor pen.old (fill head_text (seen frame) ++ body_part frame shape drawn.now grown.now table.now n) }
    ensures { pen.new ≡ wrote pen.old (fill head_text (seen frame) ++ body_part frame shape drawn.now grown.now table.now n) }
{
    let k = shape.k as usize;
    put_filled(pen, &head_text(), &seen_of(frame));
    put_layers(pen, frame, &shape.sizes, &shape.margins, k, drawn);
    put_top(pen, frame, &shape.sizes, k, grown, table, n);
}

// A picture at the start of the buffer; its length.
#[tactic(auto, unfolding(pens::specs::Pens::place, pens::specs::Pens::capacity, pens::specs::Pens::wrote))]
pub fn put_picture(
    buf: &mut [u8],
    frame: Frame,
    shape: Shape,
    drawn: &[i32],
    grown: &[i32],
    table: &[u32],
    n: u32,
) -> usize
    requires small { Small frame × LayersDrawable shape.sizes shape.margins shape.k drawn.now }
    requires table_rows { TableRows shape.sizes shape.k grown.now table.now n }
    requires fits_at { FitsAt buf.old 0 (fill head_text (seen frame) ++ body_part frame shape drawn.now grown.now table.now n) }
    ensures { Put buf.old 0
        (fill head_text (seen frame) ++ body_part frame shape drawn.now grown.now table.now n) buf.new result }
{
    let mut pen = Pen { buf, at: 0 };
    put_all(&mut pen, frame, shape, drawn, grown, table, n);
    pen.at
}
