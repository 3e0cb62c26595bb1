// The turns of a round: each client's page call, out of what is left of the budget, into its part of the table.
ghost use Rattle.std.specs.Prelude.{◌≡◌, false, map, suc, ◌+◌, ◌*◌, ◌/◌, ◌≤◌, ◌<◌, length};
ghost use Rattle.paging.specs.Answers.{stop_told, page_told};
ghost use Rattle.pager.specs.Answers.{plain_overlay};
ghost use Rattle.rounds.specs.Shares.{after};
ghost use Rattle.rounds.specs.Rounds.{ticket_of};
ghost use Rattle.rounds_code.specs.Parts.{request, empty_page, OnPlans, OneServed, AllServed};
ghost use Rattle.sweep.specs.Sweep.{sweep_order};

use pager::plain_page;
use paging::{Page, Stop, Ticket};
use slots::Walk;
use totals::nothing;

// The client after t of m.
pub fn after_client(m: u32, t: u32) -> u32
    requires { t ≤ m }
    ensures { result ≡ after m t }
{
    if t == m {
        return 1;
    }
    t + 1
}

// A page that did nothing.
fn empty_page(stop: Stop, ticket: Ticket) -> Page
    ensures { page_told result ≡ empty_page (stop_told stop) ticket }
{
    Page {
        stop,
        rows: 0,
        probes: 0,
        area: nothing(),
        ticket,
    }
}

// A page that did nothing for each ticket.
pub fn empty_pages(stop: Stop, tickets: [Ticket; 16]) -> [Page; 16]
    ensures { map page_told result ≡ map (empty_page (stop_told stop)) tickets }
{
    let mut pages = [empty_page(stop, tickets[0]); 16];
    for (i, &ticket) in tickets.iter().enumerate() {
        pages[i] = empty_page(stop, ticket);
    }
    pages
}

// The cells of a part of a table for m clients.
fn part_size(k: usize, m: usize, cells: usize) -> usize
    requires { (0 < k) × (k ≤ 6) × (0 < m) × (m ≤ 16) }
    ensures { result ≡ k * (cells / (k * m)) }
{
    k * (cells / (k * m))
}

// The page call of the client at a place, from 0, with its counter and its part.
fn serve_one(
    walk: &Walk,
    at: usize,
    size: usize,
    budget: u32,
    tickets: [Ticket; 16],
    counters: &mut [u64],
    table: &mut [u32],
) -> Page
    requires framing { (walk.now.order.now ≡ sweep_order walk.now.cells.now) × walk.now.frame.timed ≡ false }
    requires at_bound { (at < 16) × (at < length counters.old) × (at * size + size ≤ length table.old) }
    ensures { OneServed (plain_overlay walk.now.frame walk.now.cells.now) (ticket_of tickets (suc at)) at size budget
        counters.old table.old (page_told result) counters.new table.new }
{
    let ticket = tickets[at];
    let next = at + 1;
    let start = at * size;
    let end = start + size;
    plain_page(
        walk,
        ticket,
        &mut counters[at..next],
        budget,
        &mut table[start..end],
    )
}

// The page calls of m clients in turn, from a given first one; past m, pages that did nothing.
pub fn serve_all(
    walk: &Walk,
    m: u32,
    first: u32,
    budget: u32,
    tickets: [Ticket; 16],
    counters: &mut [u64],
    table: &mut [u32],
) -> [Page; 16]
    requires framing { (walk.now.order.now ≡ sweep_order walk.now.cells.now) × walk.now.frame.timed ≡ false }
    requires m_bound { (m ≤ 16) × (1 ≤ first) × (first ≤ m) × (length counters.old ≡ m) }
    ensures { OnPlans walk.now.order.now walk.now.cells.now walk.now.frame (λ s plain.
        AllServed (request s plain walk.now.order.now m first budget tickets counters.old table.old)
        (map page_told result) counters.new table.new) }
{
    let size = part_size(walk.frame.k, m as usize, table.len());
    let mut pages = empty_pages(Stop::Spent, tickets);
    let mut client = first;
    let mut left = budget;
    for i in 0..m {
        let at = (client - 1) as usize;
        let offer = left / (m - i);
        let page = serve_one(walk, at, size, offer, tickets, counters, table);
        left -= page.probes;
        pages[at] = page;
        client = after_client(m, client);
    }
    pages
}
