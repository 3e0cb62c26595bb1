// The timed run of a plan with a windows text, told.
ghost use Rattle.std.specs.Prelude.{◌≡◌, ◌*◌, length};
ghost use Rattle.std.proofs.Math.Option.{some};
ghost use Rattle.lists.specs.Lists.{sum};
ghost use Rattle.plan.specs.Causes.{by_number};
ghost use Rattle.reporting.specs.Report.{run_table_cells};
ghost use Rattle.outcomes.specs.Outcomes.{Told};
ghost use Rattle.outcomes.specs.inner.Rooms.{Room};
ghost use Rattle.listing.specs.Hours.{timed_said, plan_hours};
ghost use Rattle.listing.specs.inner.Parts.{Ordered, Ran};

use crate::RUN_WORK_CELLS;
use crate::hour_lines::put_hour_grown;
use listing_code::{PlanCommand, put_fault, read_windows};
use outcomes::Reply;
use outcomes_code::put_refusal;
use paging::Done;
use plan::{Cause, Shape};
use plan_code::count_of;
use runner::timed_run;

// The cells of the windows of any plan.
const MOST_HOURS: usize = 6144;

// The command `hours` with a windows text.
#[derive(Clone, Copy)]
pub struct Hours<'a> {
    pub windows: &'a [u8],
}

impl<'a> PlanCommand for Hours<'a> {
    ghost say = { λ h. plan_hours h.windows.now };

    fn tell(
        &self,
        shape: Shape,
        cells: &[i32],
        order: &[u32],
        table: &mut [u32],
        out: &mut [u8],
        err: &mut [u8],
    ) -> Reply {
        hours_plan(shape, cells, order, self.windows, table, out, err)
    }
}

// What is said of a sound plan in its order and of a windows text, with a table.
fn hours_plan(
    shape: Shape,
    cells: &[i32],
    order: &[u32],
    windows: &[u8],
    table: &mut [u32],
    out: &mut [u8],
    err: &mut [u8],
) -> Reply
    requires { Ordered shape cells.now order.now × (length table.old ≡ run_table_cells) × Room out.old err.old }
    ensures { Told (plan_hours windows.now shape cells.now) out.old err.old out.new err.new result }
{
    let mut hours = [0u32; MOST_HOURS];
    hours_read(shape, cells, order, windows, &mut hours, table, out, err)
}

// The same, with a buffer for the windows.
fn hours_read(
    shape: Shape,
    cells: &[i32],
    order: &[u32],
    windows: &[u8],
    hours: &mut [u32],
    table: &mut [u32],
    out: &mut [u8],
    err: &mut [u8],
) -> Reply
    requires plan { Ordered shape cells.now order.now × (length hours.old ≡ 6144) }
    requires room { (length table.old ≡ run_table_cells) × Room out.old err.old }
    ensures { Told (plan_hours windows.now shape cells.now) out.old err.old out.new err.new result }
{
    let n = count_of(shape);
    match read_windows(windows, n, hours) {
        Err(fault) => put_fault(out, err, fault),
        Ok(()) => {
            let h = 2 * n;
            hours_table(shape, cells, &hours[..h], order, table, out, err)
        }
    }
}

// The timed run of a sound plan in its order, with a table.
fn hours_table(
    shape: Shape,
    cells: &[i32],
    hours: &[u32],
    order: &[u32],
    table: &mut [u32],
    out: &mut [u8],
    err: &mut [u8],
) -> Reply
    requires plan { Ordered shape cells.now order.now × (length hours.now ≡ 2 * sum shape.sizes) }
    requires room { (length table.old ≡ run_table_cells) × Room out.old err.old }
    ensures { Told (timed_said shape cells.now hours.now)
        out.old err.old out.new err.new result }
{
    let mut work = [0i32; RUN_WORK_CELLS];
    let run = timed_run(shape, cells, hours, order, table, &mut work);
    hours_told(run, shape, cells, hours, table, out, err)
}

// What is said of the timed run's answer, and the table that it left.
fn hours_told(
    run: Result<Done, Cause>,
    shape: Shape,
    cells: &[i32],
    hours: &[u32],
    table: &[u32],
    out: &mut [u8],
    err: &mut [u8],
) -> Reply
    requires { Ran (some hours.now) shape cells.now (by_number run) table.now × (length hours.now ≡ 2 * sum shape.sizes) × Room out.old err.old }
    ensures { Told (timed_said shape cells.now hours.now)
        out.old err.old out.new err.new result }
{
    match run {
        Err(cause) => put_refusal(out, err, cause),
        Ok(done) => {
            let rows = done.rows;
            let probes = done.probes;
            let ground = done.ground;
            let n = put_hour_grown(out, shape, cells, hours, table, rows, probes, ground);
            Reply::done(n)
        }
    }
}
