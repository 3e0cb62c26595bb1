// The crossing report of a plan, told.
ghost use Rattle.std.specs.Prelude.{◌≡◌, ◌++◌, ◌≤◌, length};
ghost use Rattle.crossing_report.specs.CrossingCall.{report_told};
ghost use Rattle.plan.specs.Plan.{grown, layers, Sound};
ghost use Rattle.lists.specs.inner.Stores.{Put};
ghost use Rattle.totals.specs.Totals.{Kept};
ghost use Rattle.rows.specs.Tables.{rows_in};
ghost use Rattle.rows.specs.inner.TableRows.{TableRows};
ghost use Rattle.printing.specs.Lines.{total_line};
ghost use Rattle.printing.specs.inner.Parts.{FitsAt};
ghost use Rattle.reporting.specs.Report.{run_table_cells};
ghost use Rattle.outcomes.specs.Outcomes.{Told};
ghost use Rattle.outcomes.specs.inner.Rooms.{Room};
ghost use Rattle.listing.specs.Lines.{classed_lines, class_lines};
ghost use Rattle.listing.specs.Classes.{plan_classes};
ghost use Rattle.listing.specs.inner.Parts.{Ordered, Crossed};

use crate::RUN_WORK_CELLS;
use crate::class_lines::put_class_table;
use crossing_report::CrossingReport;
use crossing_report_code::crossing_report;
use listing_code::PlanCommand;
use outcomes::Reply;
use outcomes_code::put_refusal;
use plan::{MOST_CELLS, Shape};
use plan_code::grow_plan;
use totals::Total;

// The command `classes`.
#[derive(Clone, Copy)]
pub struct Classes;

impl PlanCommand for Classes {
    ghost say = { λ c. plan_classes };

    fn tell(
        &self,
        shape: Shape,
        cells: &[i32],
        order: &[u32],
        table: &mut [u32],
        out: &mut [u8],
        err: &mut [u8],
    ) -> Reply {
        classes_plan(shape, cells, order, table, out, err)
    }
}

// The crossing report of a sound plan in its order, with a table.
fn classes_plan(
    shape: Shape,
    cells: &[i32],
    order: &[u32],
    table: &mut [u32],
    out: &mut [u8],
    err: &mut [u8],
) -> Reply
    requires { Ordered shape cells.now order.now × (length table.old ≡ run_table_cells) × Room out.old err.old }
    ensures { Told (plan_classes shape cells.now) out.old err.old out.new err.new result }
{
    let mut work = [0i32; RUN_WORK_CELLS];
    match crossing_report(shape, cells, order, table, &mut work) {
        Ok(report) => classes_told(report, shape, cells, table, out, err),
        Err(cause) => put_refusal(out, err, cause),
    }
}

// What is said of a crossing report, and the table that it left.
fn classes_told(
    report: CrossingReport,
    shape: Shape,
    cells: &[i32],
    table: &[u32],
    out: &mut [u8],
    err: &mut [u8],
) -> Reply
    requires { Crossed shape cells.now (report_told (Ok report)) table.now × Room out.old err.old }
    ensures { Told (plan_classes shape cells.now) out.old err.old out.new err.new result }
{
    let run = report.run;
    let counts = report.counts;
    let rows = run.rows;
    let probes = run.probes;
    let ground = run.ground;
    let n = put_class_grown(out, shape, cells, table, &counts, rows, probes, ground);
    Reply::done(n)
}

// The lines of a sound plan's table with classes, those of the counts, and the total; their length.
fn put_class_grown(
    out: &mut [u8],
    shape: Shape,
    cells: &[i32],
    table: &[u32],
    counts: &[u32],
    rows: u32,
    probes: u64,
    total: Total,
) -> usize
    requires sound { Sound shape cells.now × TableRows shape.sizes shape.k (grown shape cells.now) table.now rows
        × (3 ≤ shape.k) × Kept total }
    requires fits_at { FitsAt out.old 0
        (classed_lines (layers shape cells.now) (rows_in shape.k rows table.now) ++ (class_lines 0 counts.now ++ total_line rows probes total)) }
    ensures { Put out.old 0
        (classed_lines (layers shape cells.now) (rows_in shape.k rows table.now)
        ++ (class_lines 0 counts.now ++ total_line rows probes total)) out.new result }
{
    let mut run = [0i32; MOST_CELLS];
    grow_plan(shape, cells, &mut run);
    let n = cells.len();
    put_class_table(
        out,
        &shape.sizes,
        shape.k as usize,
        &run[..n],
        table,
        counts,
        rows,
        probes,
        total,
    )
}
