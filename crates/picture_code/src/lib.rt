// The command `picture`: a picture of the plan of a text. What it says is defined in the crate `picture`.
#![tactic(auto)]

mod drawing;
mod fill;
mod frames;
mod hatchings;
mod layers;
mod marks;
mod numbers;
mod row_marks;
mod shapes;
mod texts;
mod views;
mod whole;

ghost use Rattle.std.specs.Prelude.{◌≡◌, length};
ghost use Rattle.std.proofs.Math.Option.{none};
ghost use Rattle.plan.specs.Causes.{by_number};
ghost use Rattle.reporting.specs.Report.{run_table_cells};
ghost use Rattle.outcomes.specs.Outcomes.{Told};
ghost use Rattle.outcomes.specs.inner.Rooms.{Room};
ghost use Rattle.listing.specs.inner.Parts.{Ordered, Ran};
ghost use Rattle.picture.specs.Pictures.{plan_picture, picture_said};

use drawing::put_plan;
use listing_code::{PlanCommand, tell_plan};
use outcomes::Reply;
use outcomes_code::put_refusal;
use paging::Done;
use plan::{Cause, Shape};
use runner::run_all;

// The cells of the run's work buffer.
const RUN_WORK_CELLS: usize = 12288;

// The command `picture`.
#[derive(Clone, Copy)]
struct Drawn;

impl PlanCommand for Drawn {
    ghost say = { λ p. plan_picture };

    fn tell(
        &self,
        shape: Shape,
        cells: &[i32],
        order: &[u32],
        table: &mut [u32],
        out: &mut [u8],
        err: &mut [u8],
    ) -> Reply {
        picture_plan(shape, cells, order, table, out, err)
    }
}

// The picture of a plan text.
pub fn picture(text: &[u8], out: &mut [u8], err: &mut [u8]) -> Reply
    requires { Room out.old err.old }
    ensures { Told (picture_said text.now) out.old err.old out.new err.new result }
{
    tell_plan(&Drawn, text, out, err)
}

// The picture of a sound plan in its order, with a table.
fn picture_plan(
    shape: Shape,
    cells: &[i32],
    order: &[u32],
    table: &mut [u32],
    out: &mut [u8],
    err: &mut [u8],
) -> Reply
    requires { Ordered shape cells.now order.now × (length table.old ≡ run_table_cells) × Room out.old err.old }
    ensures { Told (plan_picture shape cells.now) out.old err.old out.new err.new result }
{
    let mut work = [0i32; RUN_WORK_CELLS];
    let run = run_all(shape, cells, order, table, &mut work);
    picture_told(run, shape, cells, table, out, err)
}

// What is said of the run's answer, and the table that it left.
fn picture_told(
    run: Result<Done, Cause>,
    shape: Shape,
    cells: &[i32],
    table: &[u32],
    out: &mut [u8],
    err: &mut [u8],
) -> Reply
    requires { Ran none shape cells.now (by_number run) table.now × Room out.old err.old }
    ensures { Told (plan_picture shape cells.now) out.old err.old out.new err.new result }
{
    match run {
        Err(cause) => put_refusal(out, err, cause),
        Ok(done) => Reply::done(put_plan(out, shape, cells, table, done.rows)),
    }
}
