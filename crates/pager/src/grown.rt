// The calls on a plan that its own checks and those of its windows let through: over its grown cells, which are the cells as drawn where no layer has a
// margin, and over a copy that is grown where one has. Check 5 is made here, since the order is that of the grown plan.
ghost use Rattle.std.specs.Prelude.{◌≡◌, ◌≤◌, length};
ghost use Rattle.plan.specs.Causes.{by_number};
ghost use Rattle.plan.specs.Plan.{sizes_of, Sound};
ghost use Rattle.plan.specs.Frames.{Framed};
ghost use Rattle.paging.specs.Answers.{page_told};
ghost use Rattle.pager.specs.Answers.{first_of, Hourly, Paired, OverGrown, AsPage};

use crate::answers::{first_cursor, page_at, refused_page};
use paging::{Cursor, Page, Ticket};
use plan::{Cause, MOST_CELLS, Shape};
use plan_code::{grown_cells, is_drawn};
use slots::{Walk, frame_of};
use sweep_code::is_order;

// ---- the first cursor
pub fn first_over(shape: Shape, grown: &[i32], order: &[u32]) -> Result<Cursor, Cause>
    requires { (shape.k ≤ length shape.sizes) × Framed (sizes_of shape) grown.now }
    ensures { OverGrown shape grown.now (λ cells. by_number result ≡ first_of shape cells order.now) }
{
    if !is_order(grown, order) {
        return Err(Cause::WrongOrder);
    }
    let none = [0u32; 1];
    let frame = frame_of(shape, false);
    let walk = Walk {
        frame,
        cells: grown,
        hours: &none,
        order,
    };
    Ok(first_cursor(&walk))
}

// ---- a page
pub fn page_over(
    shape: Shape,
    grown: &[i32],
    timed: bool,
    hours: &[u32],
    order: &[u32],
    ticket: Ticket,
    counter: &mut [u64],
    budget: u32,
    table: &mut [u32],
) -> Page
    requires k_in_bounds { (shape.k ≤ length shape.sizes) × Framed (sizes_of shape) grown.now }
    requires hourly { Hourly timed shape hours.now × Paired timed shape hours.now }
    ensures { OverGrown shape grown.now
        (λ cells. AsPage timed shape cells hours.now
        order.now ticket counter.old budget table.old (page_told result) counter.new table.new) }
{
    if !is_order(grown, order) {
        return refused_page(Cause::WrongOrder, ticket);
    }
    let frame = frame_of(shape, timed);
    let walk = Walk {
        frame,
        cells: grown,
        hours,
        order,
    };
    page_at(&walk, ticket, counter, budget, table)
}

// The page over the cells as drawn, where no layer has a margin, or over a copy.
pub fn page_on(
    shape: Shape,
    cells: &[i32],
    timed: bool,
    hours: &[u32],
    order: &[u32],
    ticket: Ticket,
    counter: &mut [u64],
    budget: u32,
    table: &mut [u32],
) -> Page
    requires { Sound shape cells.now × Hourly timed shape hours.now }
    ensures { AsPage timed shape cells.now hours.now
        order.now ticket counter.old budget table.old (page_told result) counter.new table.new }
{
    if is_drawn(shape) {
        return page_over(
            shape, cells, timed, hours, order, ticket, counter, budget, table,
        );
    }
    let mut run = [0i32; MOST_CELLS];
    let grown = grown_cells(shape, cells, &mut run);
    page_over(
        shape, grown, timed, hours, order, ticket, counter, budget, table,
    )
}
