// The report on a plan text, put into a buffer. What is printed is defined in the crate `reporting`.
#![tactic(auto)]

ghost use Rattle.std.specs.Prelude.{◌≡◌, ◌++◌, ◌≤◌, length, take};
ghost use Rattle.plan.specs.Causes.{number_of, by_number};
ghost use Rattle.plan.specs.Limits.{most_cells};
ghost use Rattle.plan.specs.Plan.{count, grown, layers, Sound};
ghost use Rattle.sweep.specs.Sweep.{sweep_order};
ghost use Rattle.lists.specs.inner.Stores.{Put};
ghost use Rattle.totals.specs.Totals.{Kept};
ghost use Rattle.rows.specs.Tables.{rows_in};
ghost use Rattle.rows.specs.inner.TableRows.{TableRows};
ghost use Rattle.printing.specs.Lines.{row_lines, total_line, refused_line};
ghost use Rattle.printing.specs.inner.Parts.{FitsAt};
ghost use Rattle.reporting.specs.Report.{run_table_cells, room_for_any, report_cause, report_of, out_after};
ghost use Rattle.reporting.specs.inner.Parts.{plan_cells, Lent, RanInto, plan_cause, plan_report, Printed};

use paging::Done;
use plan::{Cause, MOST_CELLS, MOST_RECTS, Shape};
use plan_code::{count_of, grown_cells};
use printing_code::{put_refused, put_table};
use reader::read;
use reporting::Printout;
use runner::run_all;
use sweep_code::make_order;
use totals::Total;

// The longest input. `outcomes` has it for the commands; the report stands below them.
const LONGEST_INPUT: usize = 65536;

// The cells of the table that the whole run is made into, and of its work buffer: two for each of at most 6,144 rows.
const RUN_TABLE_CELLS: usize = 12288;

const RUN_WORK_CELLS: usize = 12288;

// What the report program prints for a text, put into a lent buffer that has room for any report; its length.
pub fn report(text: &[u8], out: &mut [u8; 655360]) -> usize
    ensures length { result ≡ length (report_of text.now) }
    ensures buffer { out.new ≡ out_after text.now out.old }
    ensures inside { (result ≤ length out.new) × (result ≡ length (take result out.new)) }
{
    report_on(text, out).size
}

// The report on a text, where there is room for any, and its cause.
pub fn report_on(text: &[u8], out: &mut [u8]) -> Printout
    requires { room_for_any ≤ length out.old }
    ensures { Printed (report_cause text.now) (report_of text.now) out.old out.new result }
{
    if LONGEST_INPUT < text.len() {
        return refuse(out, Cause::LongInput);
    }
    let mut cells = [0i32; MOST_CELLS];
    report_text(text, &mut cells, out)
}

// A refusal, where there is room for any report.
fn refuse(out: &mut [u8], cause: Cause) -> Printout
    requires { room_for_any ≤ length out.old }
    ensures { Printed (number_of cause) (refused_line (number_of cause)) out.old out.new result }
{
    let size = put_refused(out, 0, u32::from(cause));
    Printout {
        told: Err(cause),
        size,
    }
}

// The report on a text that is not too long, with the cells that it is read into.
fn report_text(text: &[u8], cells: &mut [i32], out: &mut [u8]) -> Printout
    requires { (length text.now ≤ 65536) × (length cells.old ≡ most_cells) × (room_for_any ≤ length out.old) }
    ensures { Printed (report_cause text.now) (report_of text.now) out.old out.new result }
{
    match read(text, cells) {
        Ok(shape) => report_plan(shape, cells, out),
        Err(cause) => refuse(out, cause),
    }
}

// The report on a sound plan, whose cells stand first in the lent ones.
fn report_plan(shape: Shape, lent: &[i32], out: &mut [u8]) -> Printout
    requires { Lent shape lent.now × (room_for_any ≤ length out.old) }
    ensures { Printed (plan_cause shape (plan_cells shape lent.now)) (plan_report shape (plan_cells shape lent.now))
        out.old out.new result }
{
    let n = 4 * count_of(shape);
    let mut order = [0u32; MOST_RECTS];
    let mut table = [0u32; RUN_TABLE_CELLS];
    report_cells(shape, &lent[..n], &mut order, &mut table, out)
}

// The same, with the buffers that it needs: one for the order, one for the table.
fn report_cells(
    shape: Shape,
    cells: &[i32],
    order: &mut [u32],
    table: &mut [u32],
    out: &mut [u8],
) -> Printout
    requires { Sound shape cells.now × (count cells.now ≤ length order.old) × (length table.old ≡ run_table_cells)
        × (room_for_any ≤ length out.old) }
    ensures { Printed (plan_cause shape cells.now) (plan_report shape cells.now) out.old out.new result }
{
    let n = cells.len() / 4;
    report_sound(shape, cells, &mut order[..n], table, out)
}

// The same, with a buffer for the order that is as long as the order.
fn report_sound(
    shape: Shape,
    cells: &[i32],
    order: &mut [u32],
    table: &mut [u32],
    out: &mut [u8],
) -> Printout
    requires { Sound shape cells.now × (length order.old ≡ count cells.now) × (length table.old ≡ run_table_cells)
        × (room_for_any ≤ length out.old) }
    ensures { Printed (plan_cause shape cells.now) (plan_report shape cells.now) out.old out.new result }
{
    let _ = make_order(shape, cells, order);
    report_ordered(shape, cells, order, table, out)
}

// The same, with the order.
fn report_ordered(
    shape: Shape,
    cells: &[i32],
    order: &[u32],
    table: &mut [u32],
    out: &mut [u8],
) -> Printout
    requires { Sound shape cells.now × (order.now ≡ sweep_order (grown shape cells.now))
        × (length table.old ≡ run_table_cells)
        × (room_for_any ≤ length out.old) }
    ensures { Printed (plan_cause shape cells.now) (plan_report shape cells.now) out.old out.new result }
{
    let mut work = [0i32; RUN_WORK_CELLS];
    let run = run_all(shape, cells, order, table, &mut work);
    report_run(run, shape, cells, table, out)
}

// The report on what the whole run answered, and the table that it left.
fn report_run(
    run: Result<Done, Cause>,
    shape: Shape,
    cells: &[i32],
    table: &[u32],
    out: &mut [u8],
) -> Printout
    requires { RanInto shape cells.now (by_number run) table.now × (room_for_any ≤ length out.old) }
    ensures { Printed (plan_cause shape cells.now) (plan_report shape cells.now) out.old out.new result }
{
    match run {
        Err(cause) => refuse(out, cause),
        Ok(done) => {
            let rows = done.rows;
            let probes = done.probes;
            let ground = done.ground;
            let size = put_grown(out, shape, cells, table, rows, probes, ground);
            Printout { told: Ok(()), size }
        }
    }
}

// The lines of a sound plan's table, and the total.
fn put_grown(
    out: &mut [u8],
    shape: Shape,
    cells: &[i32],
    table: &[u32],
    rows: u32,
    probes: u64,
    total: Total,
) -> usize
    requires sound { Sound shape cells.now × TableRows shape.sizes shape.k (grown shape cells.now) table.now rows × Kept total }
    requires fits_at { FitsAt out.old 0 (row_lines (layers shape cells.now) (rows_in shape.k rows table.now) ++ total_line rows probes total) }
    ensures { Put out.old 0
        (row_lines (layers shape cells.now) (rows_in shape.k rows table.now) ++ total_line rows probes total) out.new result }
{
    let mut run = [0i32; MOST_CELLS];
    let grown = grown_cells(shape, cells, &mut run);
    put_table(
        out,
        &shape.sizes,
        shape.k as usize,
        grown,
        table,
        rows,
        probes,
        total,
    )
}
