// The lines of the command `classes`, put into a buffer at a place.
ghost use Rattle.std.specs.Prelude.{[], ◌∷◌, ◌++◌, ◌≤◌, length, take};
ghost use Rattle.decimal.specs.Numerals.{decimal};
ghost use Rattle.lists.specs.inner.Stores.{Put};
ghost use Rattle.plan.specs.Plan.{layers_of};
ghost use Rattle.rows.specs.Tables.{rows_in};
ghost use Rattle.rows.specs.inner.TableRows.{TableRows};
ghost use Rattle.totals.specs.Totals.{Kept};
ghost use Rattle.printing.specs.Lines.{fields_end, line_of, total_line};
ghost use Rattle.printing.specs.inner.Parts.{FitsAt};
ghost use Rattle.listing.specs.Lines.{CLASS, classed_lines, class_line, class_lines};

use crate::class_rows::put_class_rows;
use printing_code::{put_field, put_last, put_total};
use speller::put_word;
use totals::Total;

// The last two fields of a line, and the byte that ends it; the place behind them.
pub fn put_two_fields(buf: &mut [u8], at: usize, first: usize, second: u32) -> usize
    requires { FitsAt buf.old at (fields_end (decimal first ∷ decimal second ∷ [])) }
    ensures { Put buf.old at (fields_end (decimal first ∷ decimal second ∷ [])) buf.new result }
{
    let a = put_field(buf, at, first as u64);
    put_last(buf, a, second as u64)
}

// A CLASS line; the place behind it.
fn put_class_line(buf: &mut [u8], at: usize, class: usize, count: u32) -> usize
    requires { FitsAt buf.old at (line_of CLASS (decimal class ∷ decimal count ∷ [])) }
    ensures { Put buf.old at (line_of CLASS (decimal class ∷ decimal count ∷ [])) buf.new result }
{
    let a = put_word(buf, at, b"CLASS");
    put_two_fields(buf, a, class, count)
}

// The CLASS line of a class that has rows; the place behind it.
fn put_count(buf: &mut [u8], at: usize, class: usize, count: u32) -> usize
    requires { FitsAt buf.old at (class_line class count) }
    ensures { Put buf.old at (class_line class count) buf.new result }
{
    if count == 0 {
        return at;
    }
    put_class_line(buf, at, class, count)
}

// The CLASS lines of counts, from class 0 on; the place behind them.
fn put_counts(buf: &mut [u8], from: usize, counts: &[u32]) -> usize
    requires { FitsAt buf.old from (class_lines 0 counts.now) }
    ensures { Put buf.old from (class_lines 0 counts.now) buf.new result }
{
    let mut at = from;
    for (i, count) in counts.iter().enumerate() {
        at = put_count(buf, at, i, *count);
    }
    at
}

// The CLASS lines and the TOTAL line; the place behind them.
fn put_class_end(
    buf: &mut [u8],
    at: usize,
    counts: &[u32],
    rows: u32,
    probes: u64,
    total: Total,
) -> usize
    requires { Kept total × FitsAt buf.old at (class_lines 0 counts.now ++ total_line rows probes total) }
    ensures { Put buf.old at (class_lines 0 counts.now ++ total_line rows probes total) buf.new result }
{
    let a = put_counts(buf, at, counts);
    put_total(buf, a, rows, probes, total)
}

// The lines of the first n rows of a table, each with its class, those of the counts, and the total, at the start of the buffer; the place behind them.
pub fn put_class_table(
    buf: &mut [u8],
    sizes: &[u32],
    k: usize,
    cells: &[i32],
    table: &[u32],
    counts: &[u32],
    n: u32,
    probes: u64,
    total: Total,
) -> usize
    requires table_rows { TableRows sizes.now k cells.now table.now n × (3 ≤ k) × Kept total }
    requires fits_at { FitsAt buf.old 0
        (classed_lines (layers_of (take k sizes.now) cells.now) (rows_in k n table.now) ++ (class_lines 0 counts.now ++ total_line n probes total)) }
    ensures { Put buf.old 0
        (classed_lines (layers_of (take k sizes.now) cells.now) (rows_in k n table.now)
        ++ (class_lines 0 counts.now ++ total_line n probes total)) buf.new result }
{
    let at = put_class_rows(buf, 0, sizes, k, cells, table, n as usize);
    put_class_end(buf, at, counts, n, probes, total)
}
