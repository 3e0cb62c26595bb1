// The rows of the command `classes`, put into a buffer at a place.
ghost use Rattle.std.specs.Prelude.{◌≡◌, true, ◌≤◌, length, take};
ghost use Rattle.lists.specs.inner.Stores.{Put};
ghost use Rattle.plan.specs.Plan.{layers_of};
ghost use Rattle.plan.specs.Frames.{Framed};
ghost use Rattle.rows.specs.RowCall.{is_row};
ghost use Rattle.rows.specs.Tables.{rows_in};
ghost use Rattle.rows.specs.inner.TableRows.{TableRows};
ghost use Rattle.printing.specs.inner.Parts.{FitsAt};
ghost use Rattle.listing.specs.Lines.{classed_line, classed_lines};

use crossings_code::row_class;
use listing_code::{RowPart, put_rows};
use plan::MOST_LAYERS;
use printing_code::{put_joined, put_last};
use rows_code::Drawing;

// The ROW line of a row of the first k layers' join, with its class; the place behind it. The cells are grown, and no rectangle is grown again.
fn put_classed(
    buf: &mut [u8],
    at: usize,
    sizes: &[u32],
    k: usize,
    cells: &[i32],
    row: &[u32],
) -> usize
    requires k_in_bounds { (k ≤ length sizes.now) × Framed (take k sizes.now) cells.now × (3 ≤ k) }
    requires row_value { is_row (layers_of (take k sizes.now) cells.now) row.now ≡ true }
    requires fits_at { FitsAt buf.old at (classed_line (layers_of (take k sizes.now) cells.now) row.now) }
    ensures { Put buf.old at
        (classed_line (layers_of (take k sizes.now) cells.now) row.now) buf.new result }
{
    let end = put_joined(buf, at, sizes, k, cells, row);
    let none = [0u32; MOST_LAYERS];
    let drawing = Drawing {
        sizes: &sizes[..k],
        margins: &none,
        cells,
    };
    let class = row_class(&drawing, row);
    put_last(buf, end - 1, class as u64)
}

// The first k layers' join, each row of which is put with its class.
#[derive(Clone, Copy)]
struct Classed<'a> {
    sizes: &'a [u32],
    k: usize,
    cells: &'a [i32],
}

impl<'a> RowPart for Classed<'a> {
    ghost bytes = { λ c row. classed_line (layers_of (take c.k c.sizes.now) c.cells.now) row };

    ghost takes = { λ c row. (c.k ≤ length c.sizes.now) × Framed (take c.k c.sizes.now) c.cells.now × (3 ≤ c.k)
        × (is_row (layers_of (take c.k c.sizes.now) c.cells.now) row ≡ true) };

    fn put(&self, buf: &mut [u8], at: usize, row: &[u32]) -> usize {
        put_classed(buf, at, self.sizes, self.k, self.cells, row)
    }
}

// The ROW lines of the first n rows of a table, each with its class; the place behind them.
pub fn put_class_rows(
    buf: &mut [u8],
    from: usize,
    sizes: &[u32],
    k: usize,
    cells: &[i32],
    table: &[u32],
    n: usize,
) -> usize
    requires table_rows { TableRows sizes.now k cells.now table.now n × (3 ≤ k) }
    requires fits_at { FitsAt buf.old from (classed_lines (layers_of (take k sizes.now) cells.now) (rows_in k n table.now)) }
    ensures { Put buf.old from
        (classed_lines (layers_of (take k sizes.now) cells.now) (rows_in k n table.now)) buf.new result }
{
    put_rows(&Classed { sizes, k, cells }, buf, from, table, k, n)
}
