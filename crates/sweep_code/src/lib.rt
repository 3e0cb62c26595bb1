// The sweep order of a plan made in a lent buffer, and told from any other. Which list that is, is defined in the crate `sweep`.
#![tactic(auto)]

mod order;

ghost use Rattle.std.specs.Prelude.{◌≡◌, length};
ghost use Rattle.lists.specs.Lists.{same};
ghost use Rattle.plan.specs.Causes.{refusal, by_number, unless};
ghost use Rattle.plan.specs.Plan.{count, grown, Sound};
ghost use Rattle.sweep.specs.Sweep.{sweep_order, order_cause, make_cause, order_answer, order_number, order_after};

pub use order::is_order;
use plan::{Cause, MOST_CELLS, Shape};
use plan_code::{check_plan, grown_cells, is_drawn};

// Makes the sweep order of a plan in a lent buffer, or tells why not.
pub fn make_order(shape: Shape, cells: &[i32], order: &mut [u32]) -> Result<(), Cause>
    ensures answer { by_number result ≡ order_answer (make_cause shape cells.now order.old) }
    ensures number { order_number (by_number result) ≡ make_cause shape cells.now order.old }
    ensures buffer { order.new ≡ order_after shape cells.now order.old }
{
    check_plan(shape, cells)?;
    if order.len() != cells.len() / 4 {
        return Err(Cause::WrongOrderLength);
    }
    fill_order(shape, cells, order);
    Ok(())
}

// Makes the sweep order of a sound plan: of its cells as drawn, where no layer has a margin, or of a copy that is grown.
fn fill_order(shape: Shape, cells: &[i32], order: &mut [u32])
    requires { Sound shape cells.now × (length order.old ≡ count cells.now) }
    ensures { order.new ≡ sweep_order (grown shape cells.now) }
{
    if is_drawn(shape) {
        order::fill(cells, order);
        return;
    }
    let mut run = [0i32; MOST_CELLS];
    let grown = grown_cells(shape, cells, &mut run);
    order::fill(grown, order);
}

// The first of the causes 1 2 17 3 4 5 that applies to a plan and an order.
pub fn check_order(shape: Shape, cells: &[i32], order: &[u32]) -> Result<(), Cause>
    ensures { refusal result ≡ order_cause shape cells.now order.now }
{
    check_plan(shape, cells)?;
    if is_drawn(shape) {
        return check_over(cells, order);
    }
    let mut run = [0i32; MOST_CELLS];
    let grown = grown_cells(shape, cells, &mut run);
    check_over(grown, order)
}

// 5 applies, unless the order is that of the grown cells.
fn check_over(grown: &[i32], order: &[u32]) -> Result<(), Cause>
    ensures { refusal result ≡ unless (same order.now (sweep_order grown.now)) 5 }
{
    if !is_order(grown, order) {
        return Err(Cause::WrongOrder);
    }
    Ok(())
}
