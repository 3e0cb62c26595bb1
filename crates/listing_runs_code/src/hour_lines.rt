// The lines of the command `hours`, put into a buffer at a place.
ghost use Rattle.std.specs.Prelude.{◌≡◌, true, ◌++◌, ◌*◌, ◌≤◌, length, take};
ghost use Rattle.lists.specs.Lists.{sum};
ghost use Rattle.lists.specs.inner.Stores.{Put};
ghost use Rattle.plan.specs.Plan.{layers_of, sizes_of, grown, layers, Sound};
ghost use Rattle.plan.specs.Frames.{Framed};
ghost use Rattle.rows.specs.RowCall.{is_row};
ghost use Rattle.rows.specs.Tables.{rows_in};
ghost use Rattle.rows.specs.inner.TableRows.{TableRows};
ghost use Rattle.totals.specs.Totals.{Kept};
ghost use Rattle.printing.specs.Lines.{total_line};
ghost use Rattle.printing.specs.inner.Parts.{FitsAt};
ghost use Rattle.listing.specs.Lines.{row_line_with};
ghost use Rattle.listing.specs.Hours.{minutes_in, hour_lines};

use crate::class_lines::put_two_fields;
use listing_code::{RowPart, put_rows};
use plan::{MOST_CELLS, Shape};
use plan_code::grow_plan;
use printing_code::{put_joined, put_total};
use totals::Total;
use windows_code::row_minutes;

// The ROW line of a row of the first k layers' join, with the minutes that its windows share; the place behind it.
fn put_houred(
    buf: &mut [u8],
    at: usize,
    sizes: &[u32],
    k: usize,
    cells: &[i32],
    hours: &[u32],
    row: &[u32],
) -> usize
    requires k_in_bounds { (k ≤ length sizes.now) × Framed (take k sizes.now) cells.now × (2 * sum (take k sizes.now) ≤ length hours.now) }
    requires row_value { is_row (layers_of (take k sizes.now) cells.now) row.now ≡ true }
    requires fits_at { FitsAt buf.old at (row_line_with (minutes_in (take k sizes.now) hours.now) (layers_of (take k sizes.now) cells.now) row.now) }
    ensures { Put buf.old at
        (row_line_with (minutes_in (take k sizes.now) hours.now) (layers_of (take k sizes.now) cells.now)
        row.now) buf.new result }
{
    let end = put_joined(buf, at, sizes, k, cells, row);
    let w = row_minutes(sizes, k, hours, row);
    put_two_fields(buf, end - 1, w.from as usize, w.to)
}

// The first k layers' join, each row of which is put with the minutes that its windows share.
#[derive(Clone, Copy)]
struct Houred<'a> {
    sizes: &'a [u32],
    k: usize,
    cells: &'a [i32],
    hours: &'a [u32],
}

impl<'a> RowPart for Houred<'a> {
    ghost bytes = { λ h row. row_line_with (minutes_in (take h.k h.sizes.now) h.hours.now) (layers_of (take h.k h.sizes.now) h.cells.now) row };

    ghost takes = { λ h row. (h.k ≤ length h.sizes.now) × Framed (take h.k h.sizes.now) h.cells.now
        × (2 * sum (take h.k h.sizes.now) ≤ length h.hours.now) × (is_row (layers_of (take h.k h.sizes.now) h.cells.now) row ≡ true) };

    fn put(&self, buf: &mut [u8], at: usize, row: &[u32]) -> usize {
        put_houred(buf, at, self.sizes, self.k, self.cells, self.hours, row)
    }
}

// The ROW lines of the first n rows of a table, each with its shared minutes; the place behind them.
fn put_hour_rows(
    buf: &mut [u8],
    from: usize,
    sizes: &[u32],
    k: usize,
    cells: &[i32],
    hours: &[u32],
    table: &[u32],
    n: usize,
) -> usize
    requires table_rows { TableRows sizes.now k cells.now table.now n × (2 * sum (take k sizes.now) ≤ length hours.now) }
    requires fits_at { FitsAt buf.old from
        (hour_lines (take k sizes.now) hours.now (layers_of (take k sizes.now) cells.now) (rows_in k n table.now)) }
    ensures { Put buf.old from
        (hour_lines (take k sizes.now) hours.now (layers_of (take k sizes.now) cells.now)
        (rows_in k n table.now)) buf.new result }
{
    let part = Houred {
        sizes,
        k,
        cells,
        hours,
    };
    put_rows(&part, buf, from, table, k, n)
}

// The lines of the first n rows of a table, each with its shared minutes, and the total, at the start of the buffer; the place behind them.
fn put_hour_table(
    buf: &mut [u8],
    sizes: &[u32],
    k: usize,
    cells: &[i32],
    hours: &[u32],
    table: &[u32],
    n: u32,
    probes: u64,
    total: Total,
) -> usize
    requires table_rows { TableRows sizes.now k cells.now table.now n × (2 * sum (take k sizes.now) ≤ length hours.now) × Kept total }
    requires fits_at { FitsAt buf.old 0
        (hour_lines (take k sizes.now) hours.now (layers_of (take k sizes.now) cells.now) (rows_in k n table.now) ++ total_line n probes total) }
    ensures { Put buf.old 0
        (hour_lines (take k sizes.now) hours.now (layers_of (take k sizes.now) cells.now)
        (rows_in k n table.now) ++ total_line n probes total) buf.new result }
{
    let at = put_hour_rows(buf, 0, sizes, k, cells, hours, table, n as usize);
    put_total(buf, at, n, probes, total)
}

// The lines of a sound plan's table with shared minutes, and the total; their length.
pub fn put_hour_grown(
    out: &mut [u8],
    shape: Shape,
    cells: &[i32],
    hours: &[u32],
    table: &[u32],
    rows: u32,
    probes: u64,
    total: Total,
) -> usize
    requires sound { Sound shape cells.now × TableRows shape.sizes shape.k (grown shape cells.now) table.now rows
        × (2 * sum (sizes_of shape) ≤ length hours.now) × Kept total }
    requires fits_at { FitsAt out.old 0
        (hour_lines (sizes_of shape) hours.now (layers shape cells.now) (rows_in shape.k rows table.now) ++ total_line rows probes total) }
    ensures { Put out.old 0
        (hour_lines (sizes_of shape) hours.now (layers shape cells.now) (rows_in shape.k rows table.now)
        ++ total_line rows probes total) out.new result }
{
    let mut run = [0i32; MOST_CELLS];
    grow_plan(shape, cells, &mut run);
    let n = cells.len();
    put_hour_table(
        out,
        &shape.sizes,
        shape.k as usize,
        &run[..n],
        hours,
        table,
        rows,
        probes,
        total,
    )
}
