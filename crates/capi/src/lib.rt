// The calls of the plan overlay for other languages. A slice is a pointer and a length, fixed cells are a pointer, and each call returns the number of
// a cause, 0 for none. The cells of tickets and answers are laid out by crate `cells` (specs/Cells.antt); include/overlay.h declares the calls for C.
#![tactic(auto)]

ghost use Rattle.std.specs.Prelude.{◌≡◌, length};
ghost use Rattle.std.proofs.Math.Option.{none, some};
ghost use Rattle.plan.specs.Plan.{rect_at, plan_cause};
ghost use Rattle.nearest.specs.Nearest.{nearest_call, nearest_values, near_cells};
ghost use Rattle.sweep.specs.Sweep.{order_cause, make_cause, order_after};
ghost use Rattle.rows.specs.RowCall.{row_call, row_values, common_call, common_values};
ghost use Rattle.pairs.specs.PairCall.{pair_call, pair_values};
ghost use Rattle.crossings.specs.ClassCall.{class_call, class_values};
ghost use Rattle.windows.specs.HoursCall.{hours_call, hours_values};
ghost use Rattle.paging.specs.Calls.{fresh_call, fresh_counter, page_cause, page_call, page_table, page_counter, run_cause, run_call, run_table, WorkAfter, run_values};
ghost use Rattle.crossing_report.specs.CrossingCall.{crossing_run_cause, crossing_call, crossing_table};
ghost use Rattle.rounds.specs.Rounds.{Request, round_cause, round_call, round_counters, round_table};
ghost use Rattle.c_rounds.specs.RoundCells.{tickets_in, round_cells, tickets_after};
ghost use Rattle.survey.specs.CoverCall.{cover_cause, cover_answer, cover_values, cover_after};
ghost use Rattle.text.specs.Reader.{read_cause, read_answer, read_values, cells_after};
ghost use Rattle.text.specs.Writer.{write_cause, write_answer, length_of, buffer_after};
ghost use Rattle.c_cells.specs.Cells.{shape_of, ticket_cells, ticket_in, page_cells, ticket_after, run_cells};
ghost use Rattle.c_cells.specs.Cells.{row_cells, common_cells, across_in, upward_in, pair_cells, hours_cells};

use c_codec::{
    common_cells, fresh_cells, hours_cells, number_of, page_cells, pair_cells, row_cells,
    run_cells, size_in, stop_number, strip_in, ticket_after, ticket_in,
};
use c_rounds_codec::{round_cells, tickets_after, tickets_in};
use crossing_report_code::crossing_report;
use crossings_code::{class_cell, class_of};
use nearest_code::{near_cells, nearest};
use pager::{fetch_page, fresh_ticket, timed_page};
use pairs_code::apart_pair;
use plan::{Cause, Shape};
use plan_code::{check_plan, rect_at};
use reader::read;
use rounds_code::round;
use rows_code::{row, row_common};
use runner::{run_all, timed_run};
use survey_code::cover_records;
use sweep_code::{check_order, make_order};
use windows_code::row_hours;
use writer::write;

// The version of this interface. A header or a binding of version 14 refers to it by its name, so that a program links with the library that it was
// written for.
#[unsafe(no_mangle)]
pub extern "C" fn overlay_version_14() -> u32
    ensures { result ≡ 14 }
{
    14
}

// The version of this interface, asked for by a program that takes any.
#[unsafe(no_mangle)]
pub extern "C" fn overlay_version() -> u32
    ensures { result ≡ 14 }
{
    14
}

// The first of the causes 1 2 17 3 4 that applies to a plan.
#[unsafe(no_mangle)]
pub extern "C" fn overlay_plan_cause(
    k: u32,
    sizes: &[u32; 6],
    margins: &[u32; 6],
    cells: &[i32],
) -> u32
    ensures { result ≡ plan_cause (shape_of k sizes.now margins.now) cells.now }
{
    let six = *sizes;
    let wide = *margins;
    number_of(&check_plan(
        Shape {
            k,
            sizes: six,
            margins: wide,
        },
        cells,
    ))
}

// Makes the sweep order of a plan.
#[unsafe(no_mangle)]
pub extern "C" fn overlay_make_order(
    k: u32,
    sizes: &[u32; 6],
    margins: &[u32; 6],
    cells: &[i32],
    order: &mut [u32],
) -> u32
    ensures { let s = shape_of k sizes.now margins.now in let given = order.old in
        (result ≡ make_cause s cells.now given) × (order.new ≡ order_after s cells.now given) }
{
    let six = *sizes;
    let wide = *margins;
    number_of(&make_order(
        Shape {
            k,
            sizes: six,
            margins: wide,
        },
        cells,
        order,
    ))
}

// The first of the causes 1 2 17 3 4 5 that applies to a plan and an order.
#[unsafe(no_mangle)]
pub extern "C" fn overlay_order_cause(
    k: u32,
    sizes: &[u32; 6],
    margins: &[u32; 6],
    cells: &[i32],
    order: &[u32],
) -> u32
    ensures { result ≡ order_cause (shape_of k sizes.now margins.now) cells.now order.now }
{
    let six = *sizes;
    let wide = *margins;
    number_of(&check_order(
        Shape {
            k,
            sizes: six,
            margins: wide,
        },
        cells,
        order,
    ))
}

// What the lent places name in the table of a plan. The answer's cells: the guard's layer, the area.
#[unsafe(no_mangle)]
pub extern "C" fn overlay_row(
    k: u32,
    sizes: &[u32; 6],
    margins: &[u32; 6],
    cells: &[i32],
    places: &[u32],
    answer: &mut [u64; 2],
) -> u32
    ensures { let v = row_values (row_call (shape_of k sizes.now margins.now) cells.now places.now) in
        (result ≡ v.number) × (answer.new ≡ row_cells v) }
{
    let six = *sizes;
    let wide = *margins;
    let told = row(
        Shape {
            k,
            sizes: six,
            margins: wide,
        },
        cells,
        places,
    );
    *answer = row_cells(told);
    number_of(&told)
}

// The common ground of the row that the lent places name in the table of a plan. The answer's cells: left, bottom, right, top, and its kind, the letter G, E
// or P; all 0 where they name none.
#[unsafe(no_mangle)]
pub extern "C" fn overlay_row_common(
    k: u32,
    sizes: &[u32; 6],
    margins: &[u32; 6],
    cells: &[i32],
    places: &[u32],
    answer: &mut [i32; 5],
) -> u32
    ensures { let v = common_values (common_call (shape_of k sizes.now margins.now) cells.now places.now) in
        (result ≡ v.number) × (answer.new ≡ common_cells v) }
{
    let six = *sizes;
    let wide = *margins;
    let told = row_common(
        Shape {
            k,
            sizes: six,
            margins: wide,
        },
        cells,
        places,
    );
    *answer = common_cells(told);
    number_of(&told)
}

// What lies nearest to a box (left, bottom, right, top) in each layer. The answer's cells, three for each of six layers: found or not, place, squared gap.
#[unsafe(no_mangle)]
pub extern "C" fn overlay_nearest(
    k: u32,
    sizes: &[u32; 6],
    margins: &[u32; 6],
    cells: &[i32],
    around: &[i32; 4],
    answer: &mut [u64; 18],
) -> u32
    ensures { let v = nearest_values (nearest_call (shape_of k sizes.now margins.now) cells.now (rect_at around.now 0)) in
        (result ≡ v.number) × (answer.new ≡ near_cells v) }
{
    let six = *sizes;
    let wide = *margins;
    let told = nearest(
        Shape {
            k,
            sizes: six,
            margins: wide,
        },
        cells,
        rect_at(around, 0),
    );
    *answer = near_cells(told);
    number_of(&told)
}

// Whether the rectangles at the lent places share a point, or the first pair of layers whose two do not meet. The answer's cells: the lower layer, the
// higher; both 0 where they share a point.
#[unsafe(no_mangle)]
pub extern "C" fn overlay_apart_pair(
    k: u32,
    sizes: &[u32; 6],
    margins: &[u32; 6],
    cells: &[i32],
    places: &[u32],
    answer: &mut [u64; 2],
) -> u32
    ensures { let v = pair_values (pair_call (shape_of k sizes.now margins.now) cells.now places.now) in
        (result ≡ v.number) × (answer.new ≡ pair_cells v) }
{
    let six = *sizes;
    let wide = *margins;
    let told = apart_pair(
        Shape {
            k,
            sizes: six,
            margins: wide,
        },
        cells,
        places,
    );
    *answer = pair_cells(told);
    number_of(&told)
}

// The minutes that the windows of the row share which the lent places name in the table of a plan. The answer's cells: the first of them, and the first
// after them; both 0 where there are none.
#[unsafe(no_mangle)]
pub extern "C" fn overlay_row_hours(
    k: u32,
    sizes: &[u32; 6],
    margins: &[u32; 6],
    cells: &[i32],
    hours: &[u32],
    places: &[u32],
    answer: &mut [u32; 2],
) -> u32
    ensures { let s = shape_of k sizes.now margins.now in
        let v = hours_values (hours_call s cells.now hours.now places.now) in
        (result ≡ v.number) × (answer.new ≡ hours_cells v) }
{
    let six = *sizes;
    let wide = *margins;
    let told = row_hours(
        Shape {
            k,
            sizes: six,
            margins: wide,
        },
        cells,
        hours,
        places,
    );
    *answer = hours_cells(told);
    number_of(&told)
}

// The ticket of the first probe of a plan's walk. A run begins: its counter, the run record, is left with 0.
#[unsafe(no_mangle)]
pub extern "C" fn overlay_fresh_ticket(
    k: u32,
    sizes: &[u32; 6],
    margins: &[u32; 6],
    cells: &[i32],
    order: &[u32],
    ticket: &mut [u32; 12],
    counter: &mut [u64],
) -> u32
    ensures { let s = shape_of k sizes.now margins.now in let kept = counter.old in
        let fresh = fresh_call s cells.now order.now kept in
        (result ≡ fresh.number) × (ticket.new ≡ ticket_cells fresh.ticket)
        × (counter.new ≡ fresh_counter s cells.now order.now kept) }
{
    let six = *sizes;
    let wide = *margins;
    let fresh = fresh_ticket(
        Shape {
            k,
            sizes: six,
            margins: wide,
        },
        cells,
        order,
        counter,
    );
    *ticket = fresh_cells(fresh);
    number_of(&fresh)
}

// A page of the walk from a ticket on; the ticket's cells are left with what is due next, and the counter, the run record, with its count. The answer's cells:
// why it stopped, rows, probes, metres and rest of the area sum.
#[unsafe(no_mangle)]
pub extern "C" fn overlay_fetch_page(
    k: u32,
    sizes: &[u32; 6],
    margins: &[u32; 6],
    cells: &[i32],
    order: &[u32],
    ticket: &mut [u32; 12],
    counter: &mut [u64],
    budget: u32,
    table: &mut [u32],
    answer: &mut [u64; 5],
) -> u32
    ensures { let s = shape_of k sizes.now margins.now in let rects = cells.now in let swept = order.now in
        let given = ticket.old in let from = ticket_in given in let kept = counter.old in let lent = table.old in
        let page = page_call none s rects swept from kept budget lent in
        (result ≡ page_cause none s rects swept from kept) × (answer.new ≡ page_cells page) × (ticket.new ≡ ticket_after given page)
        × (counter.new ≡ page_counter none s rects swept from kept budget lent)
        × (table.new ≡ page_table none s rects swept from kept budget lent) }
{
    let six = *sizes;
    let wide = *margins;
    let from = ticket_in(ticket);
    let page = fetch_page(
        Shape {
            k,
            sizes: six,
            margins: wide,
        },
        cells,
        order,
        from,
        counter,
        budget,
        table,
    );
    *answer = page_cells(page);
    *ticket = ticket_after(ticket, page);
    let stop = page.stop;
    stop_number(stop)
}

// A page of the timed walk from a ticket on, with a window of the week for each rectangle, two cells, in `hours`; the ticket's cells are left with what is due
// next, and the counter, the run record, with its count. The answer's cells: why it stopped, rows, probes, metres and rest of the area sum.
#[unsafe(no_mangle)]
pub extern "C" fn overlay_timed_page(
    k: u32,
    sizes: &[u32; 6],
    margins: &[u32; 6],
    cells: &[i32],
    hours: &[u32],
    order: &[u32],
    ticket: &mut [u32; 12],
    counter: &mut [u64],
    budget: u32,
    table: &mut [u32],
    answer: &mut [u64; 5],
) -> u32
    ensures { let s = shape_of k sizes.now margins.now in let rects = cells.now in let swept = order.now in
        let given = ticket.old in let from = ticket_in given in let kept = counter.old in let lent = table.old in
        let windows = some hours.now in let page = page_call windows s rects swept from kept budget lent in
        (result ≡ page_cause windows s rects swept from kept) × (answer.new ≡ page_cells page) × (ticket.new ≡ ticket_after given page)
        × (counter.new ≡ page_counter windows s rects swept from kept budget lent)
        × (table.new ≡ page_table windows s rects swept from kept budget lent) }
{
    let six = *sizes;
    let wide = *margins;
    let from = ticket_in(ticket);
    let page = timed_page(
        Shape {
            k,
            sizes: six,
            margins: wide,
        },
        cells,
        hours,
        order,
        from,
        counter,
        budget,
        table,
    );
    *answer = page_cells(page);
    *ticket = ticket_after(ticket, page);
    let stop = page.stop;
    stop_number(stop)
}

// A round: m clients, served in turn from a given first one, each from its ticket on into its part of the table, within a budget of probes in all. The
// cells of sixteen tickets are left with what is due next to each of the m, and the counters, their run records, with the counts; `next` is the client that
// the next round starts with. The answer's cells, five for each of sixteen clients: why its page stopped, rows, probes, metres and rest of the area sum.
#[unsafe(no_mangle)]
pub extern "C" fn overlay_round(
    k: u32,
    sizes: &[u32; 6],
    margins: &[u32; 6],
    cells: &[i32],
    order: &[u32],
    m: u32,
    first: u32,
    budget: u64,
    tickets: &mut [u32; 192],
    counters: &mut [u64],
    table: &mut [u32],
    next: &mut u32,
    answer: &mut [u64; 80],
) -> u32
    ensures { let given = tickets.old in
        let asked : Request = record {
          shape = shape_of k sizes.now margins.now;
          cells = cells.now;
          order = order.now;
          clients = m;
          first = first;
          budget = budget;
          tickets = tickets_in given;
          counters = counters.old;
          table = table.old;
        } in
        let round = round_call asked in
        (result ≡ round_cause asked) × (next.new ≡ round.next) × (answer.new ≡ round_cells round.pages)
        × (tickets.new ≡ tickets_after given m (round_cause asked) round.pages)
        × (counters.new ≡ round_counters asked) × (table.new ≡ round_table asked) }
{
    let six = *sizes;
    let wide = *margins;
    let told = round(
        Shape {
            k,
            sizes: six,
            margins: wide,
        },
        cells,
        order,
        m,
        first,
        budget,
        tickets_in(tickets),
        counters,
        table,
    );
    let pages = told.pages;
    *answer = round_cells(pages);
    let number = number_of(&told.checks);
    *tickets = tickets_after(tickets, m, number, pages);
    *next = told.next;
    number
}

// All rows of a plan's table. The answer's cells: rows, probes, metres and rest of the area sum, and of the ground counted once.
#[unsafe(no_mangle)]
pub extern "C" fn overlay_run_all(
    k: u32,
    sizes: &[u32; 6],
    margins: &[u32; 6],
    cells: &[i32],
    order: &[u32],
    table: &mut [u32],
    work: &mut [i32],
    answer: &mut [u64; 6],
) -> u32
    ensures { let s = shape_of k sizes.now margins.now in let rects = cells.now in let swept = order.now in
        let lent = table.old in let room = length work.old in
        let v = run_values (run_call none s rects swept lent room) in
        (result ≡ v.number) × (answer.new ≡ run_cells v) × (table.new ≡ run_table none s rects swept lent room)
        × WorkAfter (run_cause none s rects swept lent room) work.old work.new }
{
    let six = *sizes;
    let wide = *margins;
    let run = run_all(
        Shape {
            k,
            sizes: six,
            margins: wide,
        },
        cells,
        order,
        table,
        work,
    );
    *answer = run_cells(run);
    number_of(&run)
}

// All rows of a plan's timed table, with a window of the week for each rectangle, two cells, in `hours`; else as the whole run.
#[unsafe(no_mangle)]
pub extern "C" fn overlay_timed_run(
    k: u32,
    sizes: &[u32; 6],
    margins: &[u32; 6],
    cells: &[i32],
    hours: &[u32],
    order: &[u32],
    table: &mut [u32],
    work: &mut [i32],
    answer: &mut [u64; 6],
) -> u32
    ensures { let s = shape_of k sizes.now margins.now in let rects = cells.now in let swept = order.now in
        let lent = table.old in let room = length work.old in
        let windows = some hours.now in let v = run_values (run_call windows s rects swept lent room) in
        (result ≡ v.number) × (answer.new ≡ run_cells v) × (table.new ≡ run_table windows s rects swept lent room)
        × WorkAfter (run_cause windows s rects swept lent room) work.old work.new }
{
    let six = *sizes;
    let wide = *margins;
    let run = timed_run(
        Shape {
            k,
            sizes: six,
            margins: wide,
        },
        cells,
        hours,
        order,
        table,
        work,
    );
    *answer = run_cells(run);
    number_of(&run)
}

// The class of the row that the lent places name in the table of a plan, left in `told`: 17 where they name none. After a
// refusal it is 0, which is a class too: look at the number first.
#[unsafe(no_mangle)]
pub extern "C" fn overlay_row_class(
    k: u32,
    sizes: &[u32; 6],
    margins: &[u32; 6],
    cells: &[i32],
    places: &[u32],
    told: &mut u32,
) -> u32
    ensures { let v = class_values (class_call (shape_of k sizes.now margins.now) cells.now places.now) in
        (result ≡ v.number) × (told.new ≡ v.class) }
{
    let six = *sizes;
    let wide = *margins;
    let class = class_of(
        Shape {
            k,
            sizes: six,
            margins: wide,
        },
        cells,
        places,
    );
    *told = class_cell(class);
    number_of(&class)
}

// All rows of a plan's table, and how many fall in each class, 0 to 16. The answer's cells are those of a whole run.
#[unsafe(no_mangle)]
pub extern "C" fn overlay_crossing_report(
    k: u32,
    sizes: &[u32; 6],
    margins: &[u32; 6],
    cells: &[i32],
    order: &[u32],
    table: &mut [u32],
    work: &mut [i32],
    answer: &mut [u64; 6],
    counts: &mut [u32; 17],
) -> u32
    ensures { let s = shape_of k sizes.now margins.now in let rects = cells.now in let swept = order.now in
        let lent = table.old in let room = length work.old in
        let report = crossing_call s rects swept lent room in let v = run_values report.run in
        (result ≡ v.number) × (answer.new ≡ run_cells v) × (counts.new ≡ report.counts)
        × (table.new ≡ crossing_table s rects swept lent room)
        × WorkAfter (crossing_run_cause s rects swept lent room) work.old work.new }
{
    let six = *sizes;
    let wide = *margins;
    let shape = Shape {
        k,
        sizes: six,
        margins: wide,
    };
    match crossing_report(shape, cells, order, table, work) {
        Ok(report) => {
            let seventeen = report.counts;
            *answer = run_cells::<Cause>(Ok(report.run));
            *counts = seventeen;
            0
        }
        Err(cause) => {
            *answer = run_cells(Err(cause));
            *counts = [0; 17];
            u32::from(cause)
        }
    }
}

// Reads a plan text into lent cells; k, the sizes and the margins are left in theirs.
#[unsafe(no_mangle)]
pub extern "C" fn overlay_read_text(
    text: &[u8],
    cells: &mut [i32],
    k: &mut u32,
    sizes: &mut [u32; 6],
    margins: &mut [u32; 6],
) -> u32
    ensures { let lines = text.now in let room = length cells.old in let s = (read_values (read_answer room lines)).shape in
        (result ≡ read_cause room lines) × (k.new ≡ s.k) × (sizes.new ≡ s.sizes) × (margins.new ≡ s.margins)
        × (cells.new ≡ cells_after lines cells.old) }
{
    match read(text, cells) {
        Ok(shape) => {
            let six = shape.sizes;
            let wide = shape.margins;
            *k = shape.k;
            *sizes = six;
            *margins = wide;
            0
        }
        Err(cause) => {
            *k = 0;
            *sizes = [0; 6];
            *margins = [0; 6];
            u32::from(cause)
        }
    }
}

// Writes the text of a plan at the start of a lent buffer; its length is left in `size`.
#[unsafe(no_mangle)]
pub extern "C" fn overlay_write_text(
    k: u32,
    sizes: &[u32; 6],
    margins: &[u32; 6],
    cells: &[i32],
    text: &mut [u8],
    size: &mut usize,
) -> u32
    ensures { let s = shape_of k sizes.now margins.now in let rects = cells.now in let lent = text.old in
        (result ≡ write_cause s rects (length lent)) × (size.new ≡ length_of (write_answer s rects (length lent)))
        × (text.new ≡ buffer_after s rects lent) }
{
    let six = *sizes;
    let wide = *margins;
    let writing = write(
        Shape {
            k,
            sizes: six,
            margins: wide,
        },
        cells,
        text,
    );
    *size = size_in(writing);
    number_of(&writing)
}

// Puts the covers of the kept records into the first cells; how many there are is left in `kept`. Kinds (0 free, 1 lower stop, 2 upper stop, 3 both) and
// stops (lower, upper) are those of the strip across, which bounds left and right, and then of the strip upward; a kind above 3 is 21. After a refusal
// `kept` is 0.
#[unsafe(no_mangle)]
pub extern "C" fn overlay_cover_records(
    kinds: &[u32; 2],
    stops: &[f64; 4],
    corners: &[f64],
    cells: &mut [i32],
    kept: &mut usize,
) -> u32
    ensures { let across = across_in kinds.now stops.now in let upward = upward_in kinds.now stops.now in
        let floats = corners.now in let lent = cells.old in
        (result ≡ cover_cause across upward floats (length lent)) × (kept.new ≡ (cover_values (cover_answer across upward floats (length lent))).kept)
        × (cells.new ≡ cover_after across upward floats lent) }
{
    let two = *kinds;
    let four = *stops;
    let across = strip_in(two[0], four[0], four[1]);
    let upward = strip_in(two[1], four[2], four[3]);
    let answer = cover_records(across, upward, corners, cells);
    *kept = size_in(answer);
    number_of(&answer)
}
