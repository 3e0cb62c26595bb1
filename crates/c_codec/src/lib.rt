// Tickets, strips and the answers of calls put into cells, and read from them. The layout is defined in the crate `cells`.
#![tactic(auto)]

ghost use Rattle.std.specs.Prelude.{◌≡◌, ℕ, [], ◌∷◌, ◌+◌, ◌*◌, pos};
ghost use Rattle.geometry.specs.Rectangles.{letter_of};
ghost use Rattle.plan.specs.Causes.{refusal, read_by, by_number};
ghost use Rattle.rows.specs.RowCall.{row_values, common_values};
ghost use Rattle.pairs.specs.PairCall.{pair_values};
ghost use Rattle.windows.specs.HoursCall.{hours_values};
ghost use Rattle.paging.specs.Answers.{fresh_told, stop_told, page_told};
ghost use Rattle.paging.specs.Calls.{stop_number, run_values};
ghost use Rattle.text.specs.Writer.{length_of};
ghost use Rattle.c_cells.specs.Cells.{ticket_cells, cursor_in, ticket_in, stop_code, page_cells, ticket_after};
ghost use Rattle.c_cells.specs.Cells.{run_cells, row_cells, common_cells, strip_in, pair_cells, hours_cells};

use geometry::{Kind, Rect};
use geometry_code::letter;
use paging::{Cursor, Done, Page, Stop, Ticket};
use pairs::Pair;
use plan::{Cause, MOST_SLOTS};
use rows::{CommonGround, Row};
use survey::Strip;
use windows::Window;

// The number of an answer's refusal, 0 for none.
pub fn number_of<T>(answer: &Result<T, Cause>) -> u32
    ensures { result ≡ refusal answer.now }
{
    match answer {
        Ok(_) => 0,
        Err(cause) => u32::from(*cause),
    }
}

// The size that an answer tells, 0 for a refusal.
pub fn size_in<E: Copy>(answer: Result<usize, E>) -> usize
    ensures { (f : E → ℕ) → result ≡ length_of (read_by f answer) }
{
    match answer {
        Ok(size) => size,
        Err(_) => 0,
    }
}

// The cells of a row call's answer.
pub fn row_cells<E: Copy>(answer: Result<Option<Row>, E>) -> [u64; 2]
    ensures { (f : E → ℕ) → result ≡ row_cells (row_values (read_by f answer)) }
{
    match answer {
        Err(_) => [0, 0],
        Ok(None) => [0, 0],
        Ok(Some(row)) => [row.layer as u64, row.area],
    }
}

// The cells of the answer on a row's common ground.
pub fn common_cells<E: Copy>(answer: Result<Option<CommonGround>, E>) -> [i32; 5]
    ensures { (f : E → ℕ) → result ≡ common_cells (common_values (read_by f answer)) }
{
    match answer {
        Err(_) => [0, 0, 0, 0, 0],
        Ok(None) => [0, 0, 0, 0, 0],
        Ok(Some(ground)) => ground_cells(ground.rect, ground.kind),
    }
}

// The sides of a rectangle, and the letter of its kind.
fn ground_cells(r: Rect, kind: Kind) -> [i32; 5]
    ensures { result ≡ r.left ∷ r.bottom ∷ r.right ∷ r.top ∷ pos (letter_of kind) ∷ [] }
{
    let byte = letter(kind);
    [r.left, r.bottom, r.right, r.top, byte as i32]
}

// The cells of a pair call's answer.
pub fn pair_cells<E: Copy>(answer: Result<Option<Pair>, E>) -> [u64; 2]
    ensures { (f : E → ℕ) → result ≡ pair_cells (pair_values (read_by f answer)) }
{
    match answer {
        Err(_) => [0, 0],
        Ok(None) => [0, 0],
        Ok(Some(pair)) => [pair.lower as u64, pair.higher as u64],
    }
}

// The cells of the answer of the call for a row's shared minutes.
pub fn hours_cells<E: Copy>(answer: Result<Option<Window>, E>) -> [u32; 2]
    ensures { (f : E → ℕ) → result ≡ hours_cells (hours_values (read_by f answer)) }
{
    match answer {
        Err(_) => [0, 0],
        Ok(None) => [0, 0],
        Ok(Some(shared)) => [shared.from, shared.to],
    }
}

// One more than the largest cell of a ticket.
const CELL: u64 = 4294967296;

// The cells of a ticket.
pub fn ticket_cells(ticket: Ticket) -> [u32; 12]
    ensures { result ≡ ticket_cells ticket }
{
    let cursor = ticket.cursor;
    let chosen = cursor.chosen;
    let count = ticket.count;
    [
        cursor.ended as u32,
        cursor.layer,
        cursor.place,
        cursor.filled,
        chosen[0],
        chosen[1],
        chosen[2],
        chosen[3],
        chosen[4],
        cursor.next,
        (count % CELL) as u32,
        (count / CELL) as u32,
    ]
}

// The ticket in cells.
pub fn ticket_in(cells: &[u32; 12]) -> Ticket
    ensures { result ≡ ticket_in cells.now }
{
    let cursor = cursor_in(cells);
    let twelve = *cells;
    let count = count_of(twelve[10], twelve[11]);
    Ticket { cursor, count }
}

// A count of its low and its high cell.
fn count_of(low: u32, high: u32) -> u64
    ensures { result ≡ low + high * 4294967296 }
{
    low as u64 + high as u64 * CELL
}

// The cursor in the cells of a ticket; where the first is above 1, one that no walk has.
fn cursor_in(cells: &[u32; 12]) -> Cursor
    ensures { result ≡ cursor_in cells.now }
{
    let ten = *cells;
    if ten[0] > 1 {
        return Cursor {
            ended: true,
            layer: 1,
            place: 0,
            filled: 0,
            chosen: [0; MOST_SLOTS],
            next: 0,
        };
    }
    Cursor {
        ended: ten[0] == 1,
        layer: ten[1],
        place: ten[2],
        filled: ten[3],
        chosen: [ten[4], ten[5], ten[6], ten[7], ten[8]],
        next: ten[9],
    }
}

// The cells of a fresh-ticket call's answer: a refusal says Ended.
pub fn fresh_cells(answer: Result<Ticket, Cause>) -> [u32; 12]
    ensures { result ≡ ticket_cells (fresh_told answer).ticket }
{
    match answer {
        Ok(ticket) => ticket_cells(ticket),
        Err(_) => [1, 0, 0, 0, 0, 0, 0, 0, 0, 0, 0, 0],
    }
}

// The number of a stop, 0 where the page is accepted.
pub fn stop_number(stop: Stop) -> u32
    ensures { result ≡ stop_number (stop_told stop) }
{
    match stop {
        Stop::Ended => 0,
        Stop::Full => 0,
        Stop::Spent => 0,
        Stop::Refused(cause) => cause,
    }
}

// Why a page stopped, as a cell.
pub fn stop_code(stop: Stop) -> u64
    ensures { result ≡ stop_code (stop_told stop) }
{
    match stop {
        Stop::Ended => 1,
        Stop::Full => 2,
        Stop::Spent => 3,
        Stop::Refused(_) => 0,
    }
}

// The cells of a page.
pub fn page_cells(page: Page) -> [u64; 5]
    ensures { result ≡ page_cells (page_told page) }
{
    let stop = page.stop;
    let area = page.area;
    [
        stop_code(stop),
        page.rows as u64,
        page.probes as u64,
        area.metres,
        area.rest,
    ]
}

// The ticket's cells after a page: what is due next, or as given after a refusal.
pub fn ticket_after(given: &[u32; 12], page: Page) -> [u32; 12]
    ensures { result ≡ ticket_after given.now (page_told page) }
{
    let stop = page.stop;
    if stop_number(stop) != 0 {
        return *given;
    }
    let due = page.ticket;
    ticket_cells(due)
}

// The cells of a whole run's answer.
pub fn run_cells<E: Copy>(answer: Result<Done, E>) -> [u64; 6]
    ensures { (f : E → ℕ) → result ≡ run_cells (run_values (read_by f answer)) }
{
    match answer {
        Err(_) => [0, 0, 0, 0, 0, 0],
        Ok(done) => {
            let area = done.area;
            let ground = done.ground;
            [
                done.rows as u64,
                done.probes,
                area.metres,
                area.rest,
                ground.metres,
                ground.rest,
            ]
        }
    }
}

// The strip of a kind and two stops; of a kind above 3, one that is refused.
pub fn strip_in(kind: u32, lower: f64, upper: f64) -> Strip
    ensures { result ≡ strip_in kind lower upper }
{
    match kind {
        0 => Strip::Free,
        1 => Strip::From(lower),
        2 => Strip::To(upper),
        3 => Strip::Between(lower, upper),
        _ => Strip::Between(1.0, 0.0),
    }
}
