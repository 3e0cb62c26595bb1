// The rows of a table, drawn.
ghost use Rattle.std.specs.Prelude.{◌≡◌, true, ◌≤◌, ◌<◌, length, take};
ghost use Rattle.pens.specs.Pens.{RoomFor, wrote};
ghost use Rattle.plan.specs.Plan.{layers_of};
ghost use Rattle.plan.specs.Frames.{Framed};
ghost use Rattle.rows.specs.RowCall.{is_row};
ghost use Rattle.rows.specs.Tables.{rows_in};
ghost use Rattle.rows.specs.inner.TableRows.{TableRows};
ghost use Rattle.picture.specs.Pictures.{row_part, row_parts};

use crate::marks::put_row;
use listing_code::RowPart;
use pens::Pen;

// The first k layers' join, each row of which is drawn.
#[derive(Clone, Copy)]
struct Marked<'a> {
    unit: u64,
    sizes: &'a [u32],
    k: usize,
    cells: &'a [i32],
}

impl<'a> RowPart for Marked<'a> {
    ghost bytes = { λ m row. row_part m.unit (layers_of (take m.k m.sizes.now) m.cells.now) row };

    ghost takes = { λ m row. (m.k ≤ length m.sizes.now) × Framed (take m.k m.sizes.now) m.cells.now × (m.unit < 536870912)
        × (is_row (layers_of (take m.k m.sizes.now) m.cells.now) row ≡ true) };

    // A place of a buffer, since the trait of `listing_code` hands one.
    #[tactic(auto, unfolding(pens::specs::Pens::place, pens::specs::Pens::capacity, pens::specs::Pens::wrote))]
    fn put(&self, buf: &mut [u8], at: usize, row: &[u32]) -> usize {
        let mut pen = Pen { buf, at };
        put_row(&mut pen, self.unit, self.sizes, self.k, self.cells, row);
        pen.at
    }
}

// The first n rows of a table.
pub fn put_rows(
    pen: &mut Pen,
    unit: u64,
    sizes: &[u32],
    k: usize,
    cells: &[i32],
    table: &[u32],
    n: usize,
)
    requires table_rows { TableRows sizes.now k cells.now table.now n × (unit < 536870912) }
    requires room { RoomFor pen.old (row_parts unit (layers_of (take k sizes.now) cells.now) (rows_in k n table.now)) }
    ensures { pen.new ≡ wrote pen.old (row_parts unit (layers_of (take k sizes.now) cells.now) (rows_in k n table.now)) }
{
    let part = Marked {
        unit,
        sizes,
        k,
        cells,
    };
    let at = pen.at;
    pen.at = listing_code::put_rows(&part, pen.buf, at, table, k, n);
}
