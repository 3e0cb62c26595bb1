// The round call (02, Q-10): up to sixteen clients, 02's tablets, page through one plan in turns, out of one budget and into one table. What it answers is
// defined in the crate `rounds`. All clients are checked before anything is written.
#![tactic(auto)]

mod serving;

ghost use Rattle.std.specs.Prelude.{◌≡◌, false, ◌≤◌, length};
ghost use Rattle.plan.specs.Causes.{number_of, refusal};
ghost use Rattle.plan.specs.Plan.{sizes_of};
ghost use Rattle.plan.specs.Frames.{Framed};
ghost use Rattle.pager.specs.Answers.{OverGrown};
ghost use Rattle.rounds.specs.Rounds.{Request, round_told, fits_round, round_call, round_counters, round_table};
ghost use Rattle.rounds_code.specs.Parts.{request, cause_from, refused_round, OnPlans, RoundAnswered};
ghost use Rattle.sweep.specs.Sweep.{sweep_order};

use pager::check_plain;
use paging::{Stop, Ticket};
use plan::{Cause, MOST_CELLS, Shape};
use plan_code::{check_plan, grown_cells, is_drawn};
use rounds::Round;
use serving::{after_client, empty_pages, serve_all};
use slots::{Walk, frame_of};
use sweep_code::is_order;

// A round: m clients, served in turn from a given first one, each with its ticket, its counter and its part of the table, within a budget of probes in all.
pub fn round(
    shape: Shape,
    cells: &[i32],
    order: &[u32],
    m: u32,
    first: u32,
    budget: u64,
    tickets: [Ticket; 16],
    counters: &mut [u64],
    table: &mut [u32],
) -> Round
    ensures { let q : Request = record {
      shape = shape;
      cells = cells.now;
      order = order.now;
      clients = m;
      first = first;
      budget = budget;
      tickets = tickets;
      counters = counters.old;
      table = table.old;
    } in
        (round_told result ≡ round_call q) × ((counters.new ≡ round_counters q) × (table.new ≡ round_table q)) }
{
    match check_plan(shape, cells) {
        Ok(()) => {}
        Err(cause) => return refused_round(cause, tickets),
    }
    if is_drawn(shape) {
        return round_over(
            shape, cells, order, m, first, budget, tickets, counters, table,
        );
    }
    let mut run = [0i32; MOST_CELLS];
    let grown = grown_cells(shape, cells, &mut run);
    round_over(
        shape, grown, order, m, first, budget, tickets, counters, table,
    )
}

// A round over the grown cells of a sound plan.
fn round_over(
    shape: Shape,
    grown: &[i32],
    order: &[u32],
    m: u32,
    first: u32,
    budget: u64,
    tickets: [Ticket; 16],
    counters: &mut [u64],
    table: &mut [u32],
) -> Round
    requires { (shape.k ≤ length shape.sizes) × Framed (sizes_of shape) grown.now }
    ensures { OverGrown shape grown.now (λ cells.
        RoundAnswered (request shape cells order.now m first budget tickets counters.old table.old)
        (round_told result) counters.new table.new) }
{
    if !is_order(grown, order) {
        return refused_round(Cause::WrongOrder, tickets);
    }
    let none = [0u32; 1];
    let frame = frame_of(shape, false);
    let walk = Walk {
        frame,
        cells: grown,
        hours: &none,
        order,
    };
    round_on(&walk, m, first, budget, tickets, counters, table)
}

// A refused round: its cause, every ticket as given, and each stop as that refusal.
fn refused_round(cause: Cause, tickets: [Ticket; 16]) -> Round
    ensures { round_told result ≡ refused_round (number_of cause) tickets }
{
    Round {
        checks: Err(cause),
        next: 0,
        pages: empty_pages(Stop::Refused(u32::from(cause)), tickets),
    }
}

// Whether there are 1 to 16 clients, the first is one of them, the budget is below 2^32, and there is a counter for each.
fn is_fitting(m: u32, first: u32, budget: u64, records: usize) -> bool
    ensures { result ≡ fits_round m first budget records }
{
    (1..=16).contains(&m)
        && (1..=m).contains(&first)
        && budget <= 4294967295
        && records == m as usize
}

// The first of the causes 6 and 18 that refuses a ticket, the lowest client's first.
fn check_clients(
    walk: &Walk,
    m: usize,
    tickets: [Ticket; 16],
    counters: &[u64],
) -> Result<(), Cause>
    requires framing { (walk.now.order.now ≡ sweep_order walk.now.cells.now) × walk.now.frame.timed ≡ false }
    requires m_bound { (m ≤ 16) × (m ≤ length counters.now) }
    ensures { OnPlans walk.now.order.now walk.now.cells.now walk.now.frame (λ s plain.
        refusal result ≡ cause_from s plain walk.now.order.now tickets counters.now 1 m) }
{
    for i in 0..m {
        let ticket = tickets[i];
        let next = i + 1;
        check_plain(walk, ticket, &counters[i..next])?;
    }
    Ok(())
}

// A round on a plan and an order that are let through: its grown cells.
fn round_on(
    walk: &Walk,
    m: u32,
    first: u32,
    budget: u64,
    tickets: [Ticket; 16],
    counters: &mut [u64],
    table: &mut [u32],
) -> Round
    requires { (walk.now.order.now ≡ sweep_order walk.now.cells.now) × walk.now.frame.timed ≡ false }
    ensures { OnPlans walk.now.order.now walk.now.cells.now walk.now.frame (λ s plain.
        RoundAnswered (request s plain walk.now.order.now m first budget tickets counters.old table.old)
        (round_told result) counters.new table.new) }
{
    if !is_fitting(m, first, budget, counters.len()) {
        return refused_round(Cause::WrongRound, tickets);
    }
    match check_clients(walk, m as usize, tickets, counters) {
        Ok(()) => {}
        Err(lowest) => return refused_round(lowest, tickets),
    }
    let pages = serve_all(walk, m, first, budget as u32, tickets, counters, table);
    Round {
        checks: Ok(()),
        next: after_client(m, first),
        pages,
    }
}
