// The calls that page through the walk of a plan: the fresh ticket, a page, and a timed page. The whole run is in the crate `runner`; what the calls
// answer is defined in the crate `paging`.
#![tactic(auto)]

mod answers;
mod counters;
mod grown;

ghost use Rattle.std.specs.Prelude.{◌≡◌};
ghost use Rattle.std.proofs.Math.Option.{none, some};
ghost use Rattle.plan.specs.Causes.{by_number};
ghost use Rattle.paging.specs.Answers.{fresh_told, page_told};
ghost use Rattle.pager.specs.Answers.{first_of};
ghost use Rattle.paging.specs.Calls.{fresh_call, fresh_counter, page_cause, stop_number, page_call, page_table, page_counter};

use answers::refused_page;
pub use answers::{capacity_of, check_plain, plain_page};
use counters::{check_counter, write_count};
use grown::{first_over, page_on};
use paging::{Cursor, Page, Ticket};
use plan::{Cause, MOST_CELLS, Shape};
use plan_code::{check_plan, grown_cells, is_drawn};
use windows_code::check_hours;

// The ticket of the first probe of a plan's walk; a run begins, and its counter is 0 (01: the fresh-ticket call; 02: the run record).
pub fn fresh_ticket(
    shape: Shape,
    cells: &[i32],
    order: &[u32],
    counter: &mut [u64],
) -> Result<Ticket, Cause>
    ensures answer { fresh_told result ≡ fresh_call shape cells.now order.now counter.old }
    ensures counter { counter.new ≡ fresh_counter shape cells.now order.now counter.old }
{
    let cursor = first_of(shape, cells, order)?;
    check_counter(counter)?;
    write_count(counter, 0);
    Ok(Ticket { cursor, count: 0 })
}

// The cursor of the first probe, or the cause that refuses plan or order.
fn first_of(shape: Shape, cells: &[i32], order: &[u32]) -> Result<Cursor, Cause>
    ensures { by_number result ≡ first_of shape cells.now order.now }
{
    check_plan(shape, cells)?;
    if is_drawn(shape) {
        return first_over(shape, cells, order);
    }
    let mut run = [0i32; MOST_CELLS];
    let grown = grown_cells(shape, cells, &mut run);
    first_over(shape, grown, order)
}

// A page of the walk from a ticket on, within a budget of probes, into a lent table (01: the page call); the counter is that of the ticket's run.
pub fn fetch_page(
    shape: Shape,
    cells: &[i32],
    order: &[u32],
    ticket: Ticket,
    counter: &mut [u64],
    budget: u32,
    table: &mut [u32],
) -> Page
    ensures answer { page_told result
        ≡ page_call none shape cells.now order.now ticket counter.old budget table.old }
    ensures number { stop_number (page_told result).stop ≡ page_cause none shape cells.now order.now ticket counter.old }
    ensures counter { counter.new
        ≡ page_counter none shape cells.now order.now ticket counter.old budget table.old }
    ensures table { table.new
        ≡ page_table none shape cells.now order.now ticket counter.old budget table.old }
{
    let none = [0u32; 1];
    match check_plan(shape, cells) {
        Ok(()) => page_on(
            shape, cells, false, &none, order, ticket, counter, budget, table,
        ),
        Err(cause) => refused_page(cause, ticket),
    }
}

// A page of the timed walk of a plan from a ticket on; `hours` has a window of the week for each rectangle (02, Q-12).
pub fn timed_page(
    shape: Shape,
    cells: &[i32],
    hours: &[u32],
    order: &[u32],
    ticket: Ticket,
    counter: &mut [u64],
    budget: u32,
    table: &mut [u32],
) -> Page
    ensures answer { page_told result
        ≡ page_call (some hours.now) shape cells.now order.now ticket counter.old budget table.old }
    ensures number { stop_number (page_told result).stop
        ≡ page_cause (some hours.now) shape cells.now order.now ticket counter.old }
    ensures counter { counter.new
        ≡ page_counter (some hours.now) shape cells.now order.now
        ticket counter.old budget table.old }
    ensures table { table.new
        ≡ page_table (some hours.now) shape cells.now order.now
        ticket counter.old budget table.old }
{
    match check_hours(shape, cells, hours) {
        Ok(()) => page_on(
            shape, cells, true, hours, order, ticket, counter, budget, table,
        ),
        Err(cause) => refused_page(cause, ticket),
    }
}
