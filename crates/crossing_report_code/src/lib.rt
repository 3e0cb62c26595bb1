// The crossing report (02: pipes against ducts): a whole run, whose rows are then counted by class. What it answers: the crate `crossing_report`.
#![tactic(auto)]

ghost use Rattle.std.specs.Prelude.{◌≡◌, ◌≤◌, length};
ghost use Rattle.plan.specs.Plan.{layers_of};
ghost use Rattle.crossings.specs.ClassCall.{class_counts};
ghost use Rattle.rows.specs.Tables.{rows_in};
ghost use Rattle.rows.specs.inner.TableRows.{TableRows};
ghost use Rattle.rows_code.specs.Reading.{widened};
ghost use Rattle.crossing_report.specs.CrossingCall.{report_told, crossing_run_cause, crossing_call, crossing_table};
ghost use Rattle.paging.specs.Calls.{run_values, WorkAfter};

use crossing_report::CrossingReport;
use crossings_code::{check_segments, row_class};
use plan::{Cause, Shape};
use rows_code::{Drawing, row_at};
use runner::run_all;

// All rows of a plan's table into a lent table, if they fit, and how many fall in each class.
pub fn crossing_report(
    shape: Shape,
    cells: &[i32],
    order: &[u32],
    table: &mut [u32],
    work: &mut [i32],
) -> Result<CrossingReport, Cause>
    ensures answer { report_told result ≡ crossing_call shape cells.now order.now table.old (length work.old) }
    ensures values { run_values (report_told result).run
        ≡ run_values (crossing_call shape cells.now order.now table.old (length work.old)).run }
    ensures table { table.new
        ≡ crossing_table shape cells.now order.now table.old (length work.old) }
    ensures work { WorkAfter (crossing_run_cause shape cells.now order.now table.old (length work.old))
        work.old work.new }
{
    check_segments(shape, cells)?;
    let run = run_all(shape, cells, order, table, work)?;
    let counts = count_classes(&Drawing::of(&shape, cells), table, run.rows);
    Ok(CrossingReport { run, counts })
}

// How many of the first n rows of a plan's table fall in each class.
fn count_classes(drawing: &Drawing, table: &[u32], n: u32) -> [u32; 17]
    requires table_rows { let ns = drawing.now.sizes.now in
        TableRows ns (length ns) (widened ns drawing.now.margins.now drawing.now.cells.now) table.now n }
    requires three { 3 ≤ length drawing.now.sizes.now }
    ensures { let ns = drawing.now.sizes.now in
        result ≡ class_counts (layers_of ns (widened ns drawing.now.margins.now drawing.now.cells.now))
        (rows_in (length ns) n table.now) }
{
    let k = drawing.sizes.len();
    let mut counts = [0u32; 17];
    let mut start: usize = 0;
    for _ in 0..n {
        let class = row_class(drawing, row_at(table, start, k)) as usize;
        counts[class] += 1;
        start += k;
    }
    counts
}
