// The same at a place of a buffer, for what does not hold a pen yet.
#![tactic(auto, unfolding(pens::specs::Pens::place, pens::specs::Pens::capacity, pens::specs::Pens::wrote))]

ghost use Rattle.std.specs.Prelude.{◌≡◌, true, [], ◌∷◌, ◌++◌, ◌≤◌, length, take};
ghost use Rattle.decimal.specs.Numerals.{decimal};
ghost use Rattle.lists.specs.inner.Stores.{Put};
ghost use Rattle.plan.specs.Plan.{layers_of};
ghost use Rattle.plan.specs.Frames.{Framed};
ghost use Rattle.rows.specs.RowCall.{is_row};
ghost use Rattle.rows.specs.Tables.{rows_in};
ghost use Rattle.rows.specs.inner.TableRows.{TableRows};
ghost use Rattle.totals.specs.Totals.{Kept};
ghost use Rattle.printing.specs.Lines.{fields_end, row_line, row_lines, total_line, refused_line};
ghost use Rattle.printing.specs.inner.Parts.{FitsAt};

use crate::lines;
use pens::Pen;
use totals::Total;

// A tab and a number; the place behind it.
pub fn put_field(buf: &mut [u8], at: usize, n: u64) -> usize
    requires { FitsAt buf.old at (9 ∷ decimal n) }
    ensures { Put buf.old at (9 ∷ decimal n) buf.new result }
{
    let mut pen = Pen { buf, at };
    lines::put_field(&mut pen, n);
    pen.at
}

// The last field of a line, and the byte that ends it; the place behind them.
pub fn put_last(buf: &mut [u8], at: usize, n: u64) -> usize
    requires { FitsAt buf.old at (fields_end (decimal n ∷ [])) }
    ensures { Put buf.old at (fields_end (decimal n ∷ [])) buf.new result }
{
    let mut pen = Pen { buf, at };
    lines::put_last(&mut pen, n);
    pen.at
}

// The ROW line of a row of the first k layers' join; the place behind it.
pub fn put_joined(
    buf: &mut [u8],
    at: usize,
    sizes: &[u32],
    k: usize,
    cells: &[i32],
    row: &[u32],
) -> usize
    requires k_in_bounds { (k ≤ length sizes.now) × Framed (take k sizes.now) cells.now }
    requires row_value { is_row (layers_of (take k sizes.now) cells.now) row.now ≡ true }
    requires fits_at { FitsAt buf.old at (row_line (layers_of (take k sizes.now) cells.now) row.now) }
    ensures { Put buf.old at
        (row_line (layers_of (take k sizes.now) cells.now) row.now) buf.new result }
{
    let mut pen = Pen { buf, at };
    lines::put_joined(&mut pen, sizes, k, cells, row);
    pen.at
}

// The TOTAL line; the place behind it.
pub fn put_total(buf: &mut [u8], at: usize, rows: u32, probes: u64, total: Total) -> usize
    requires { Kept total × FitsAt buf.old at (total_line rows probes total) }
    ensures { Put buf.old at (total_line rows probes total) buf.new result }
{
    let mut pen = Pen { buf, at };
    lines::put_total(&mut pen, rows, probes, total);
    pen.at
}

// The lines of the first n rows of a table, and the total, at the start of the buffer; the place behind them.
pub fn put_table(
    buf: &mut [u8],
    sizes: &[u32],
    k: usize,
    cells: &[i32],
    table: &[u32],
    n: u32,
    probes: u64,
    total: Total,
) -> usize
    requires table_rows { TableRows sizes.now k cells.now table.now n × Kept total }
    requires fits_at { FitsAt buf.old 0 (row_lines (layers_of (take k sizes.now) cells.now) (rows_in k n table.now) ++ total_line n probes total) }
    ensures { Put buf.old 0
        (row_lines (layers_of (take k sizes.now) cells.now) (rows_in k n table.now) ++ total_line n probes total)
        buf.new result }
{
    let mut pen = Pen { buf, at: 0 };
    lines::put_table(&mut pen, sizes, k, cells, table, n, probes, total);
    pen.at
}

// The REFUSED line; the place behind it.
pub fn put_refused(buf: &mut [u8], at: usize, cause: u32) -> usize
    requires { FitsAt buf.old at (refused_line cause) }
    ensures { Put buf.old at (refused_line cause) buf.new result }
{
    let mut pen = Pen { buf, at };
    lines::put_refused(&mut pen, cause);
    pen.at
}
