// What a command says of the plan of a text: the text read, the sweep order of its plan made, and a table lent.
ghost use Rattle.std.specs.Prelude.{◌≡◌, List, ℤ, length};
ghost use Rattle.plan.specs.Limits.{most_cells, most_rects};
ghost use Rattle.plan.specs.Causes.{by_number};
ghost use Rattle.plan.specs.declared.Shape.{Shape};
ghost use Rattle.text.specs.Reader.{read_values};
ghost use Rattle.reporting.specs.Report.{run_table_cells};
ghost use Rattle.reporting.specs.inner.Parts.{plan_cells, Lent};
ghost use Rattle.outcomes.specs.Outcomes.{Outcome, Told};
ghost use Rattle.outcomes.specs.inner.Rooms.{Room};
ghost use Rattle.listing.specs.Plans.{on_plan};
ghost use Rattle.listing.specs.inner.Parts.{Ready, Ordered, Prepared};

use outcomes::{LONGEST_INPUT, Reply};
use outcomes_code::put_refusal;
use plan::{Cause, MOST_CELLS, MOST_RECTS, Shape};
use plan_code::count_of;
use reader::read;
use sweep_code::make_order;

// The cells of the table that a whole run is made into.
const RUN_TABLE_CELLS: usize = 12288;

// A command that a plan text is given to.
pub trait PlanCommand {
    // what it says of a sound plan
    ghost say: { Self → Shape → List ℤ → Outcome };

    // Says it, with the plan's sweep order and a table for a whole run.
    fn tell(
        &self,
        shape: Shape,
        cells: &[i32],
        order: &[u32],
        table: &mut [u32],
        out: &mut [u8],
        err: &mut [u8],
    ) -> Reply
        requires plan { Ordered shape cells.now order.now }
        requires room { (length table.old ≡ run_table_cells) × Room out.old err.old }
        ensures { Told (say self.now shape cells.now) out.old err.old out.new err.new result };
}

// What a command says of the plan of a text, or why the text is refused.
pub fn tell_plan<C: PlanCommand>(command: &C, text: &[u8], out: &mut [u8], err: &mut [u8]) -> Reply
    requires { Room out.old err.old }
    ensures { Told (on_plan (C.say command.now) text.now) out.old err.old out.new err.new result }
{
    let mut cells = [0i32; MOST_CELLS];
    let mut order = [0u32; MOST_RECTS];
    tell_text(command, text, &mut cells, &mut order, out, err)
}

// The same, with buffers for the text's plan and its order.
fn tell_text<C: PlanCommand>(
    command: &C,
    text: &[u8],
    cells: &mut [i32],
    order: &mut [u32],
    out: &mut [u8],
    err: &mut [u8],
) -> Reply
    requires { (length cells.old ≡ most_cells) × (length order.old ≡ most_rects) × Room out.old err.old }
    ensures { Told (on_plan (C.say command.now) text.now) out.old err.old out.new err.new result }
{
    match prepare(text, cells, order) {
        Ok(shape) => tell_lent(command, shape, cells, order, out, err),
        Err(cause) => put_refusal(out, err, cause),
    }
}

// The same of a plan whose cells and order stand first in the lent ones.
fn tell_lent<C: PlanCommand>(
    command: &C,
    shape: Shape,
    lent: &[i32],
    order: &[u32],
    out: &mut [u8],
    err: &mut [u8],
) -> Reply
    requires { Ready shape lent.now order.now × Room out.old err.old }
    ensures { Told (C.say command.now shape (plan_cells shape lent.now)) out.old err.old out.new err.new result }
{
    let n = count_of(shape);
    let m = 4 * n;
    let mut table = [0u32; RUN_TABLE_CELLS];
    command.tell(shape, &lent[..m], &order[..n], &mut table, out, err)
}

// Reads a plan text into the first of the lent cells, and makes its order in the first of the lent ones; and tells its shape.
pub fn prepare(text: &[u8], cells: &mut [i32], order: &mut [u32]) -> Result<Shape, Cause>
    requires { (length cells.old ≡ most_cells) × (length order.old ≡ most_rects) }
    ensures { Prepared text.now (read_values (by_number result)) cells.new order.new }
{
    if LONGEST_INPUT < text.len() {
        return Err(Cause::LongInput);
    }
    let shape = read(text, cells)?;
    order_plan(shape, cells, order);
    Ok(shape)
}

// Makes the order of a sound plan, whose cells stand first in the lent ones.
fn order_plan(shape: Shape, lent: &[i32], order: &mut [u32])
    requires { Lent shape lent.now × (length order.old ≡ most_rects) }
    ensures { Ready shape lent.now order.new }
{
    let n = count_of(shape);
    let m = 4 * n;
    let _ = make_order(shape, &lent[..m], &mut order[..n]);
}
