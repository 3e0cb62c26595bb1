// A round's tickets read from cells, and its tickets and pages put into them. The layout is defined in the crate `c_rounds`.
#![tactic(auto)]

ghost use Rattle.std.specs.Prelude.{◌≡◌, cond, ◌+◌, ◌*◌, ◌≤◌, ◌<◌, ltb, length, map, take, drop};
ghost use Rattle.paging.specs.Answers.{page_told};
ghost use Rattle.c_cells.specs.Cells.{ticket_cells, ticket_in};
ghost use Rattle.c_rounds.specs.RoundCells.{tickets_in, round_cells, tickets_after};

use c_codec::{page_cells, ticket_cells, ticket_in};
use paging::{Page, Ticket};

// The tickets in cells. A `for`: `array::from_fn` is accepted, but what it returns does not prove.
pub fn tickets_in(cells: &[u32; 192]) -> [Ticket; 16]
    ensures { result ≡ tickets_in cells.now }
{
    let mut tickets = [ticket_at(cells, 0); 16];
    for (i, ticket) in tickets.iter_mut().enumerate() {
        *ticket = ticket_at(cells, i);
    }
    tickets
}

// The ticket at a place, from 0.
fn ticket_at(cells: &[u32], i: usize) -> Ticket
    requires { (i < 16) × (length cells.now ≡ 192) }
    ensures { result ≡ ticket_in (take 12 (drop (i * 12) cells.now)) }
{
    let twelve = twelve_at(cells, i);
    ticket_in(&twelve)
}

// The cells of the ticket at a place, from 0.
fn twelve_at(cells: &[u32], i: usize) -> [u32; 12]
    requires { (i < 16) × (length cells.now ≡ 192) }
    ensures { result ≡ take 12 (drop (i * 12) cells.now) }
{
    let at = i * 12;
    let mut twelve = [0u32; 12];
    twelve.copy_from_slice(&cells[at..at + 12]);
    twelve
}

// The cells of the pages.
pub fn round_cells(pages: [Page; 16]) -> [u64; 80]
    ensures { result ≡ round_cells (map page_told pages) }
{
    let mut cells = [0u64; 80];
    for (i, page) in pages.iter().enumerate() {
        let at = i * 5;
        cells[at..at + 5].copy_from_slice(&page_cells(*page));
    }
    cells
}

// The tickets' cells after a round of m clients that told this number: what is due next to each that was served; as given past m, and after a refusal.
pub fn tickets_after(given: &[u32; 192], m: u32, number: u32, pages: [Page; 16]) -> [u32; 192]
    ensures { result ≡ tickets_after given.now m number (map page_told pages) }
{
    if number != 0 {
        return *given;
    }
    let mut cells = [0u32; 192];
    for (i, page) in pages.iter().enumerate() {
        let at = i * 12;
        let due = page.ticket;
        cells[at..at + 12].copy_from_slice(&twelve_after(given, m, i, due));
    }
    cells
}

// The cells of the ticket at a place after a round: of the one that is due, or as given where the client was not served.
fn twelve_after(given: &[u32], m: u32, i: usize, due: Ticket) -> [u32; 12]
    requires { (i < 16) × (length given.now ≡ 192) }
    ensures { result ≡ cond (ltb i m) (ticket_cells due) (take 12 (drop (i * 12) given.now)) }
{
    if i < m as usize {
        return ticket_cells(due);
    }
    twelve_at(given, i)
}
