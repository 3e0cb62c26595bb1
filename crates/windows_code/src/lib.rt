// Windows of the week (02, Q-12) read and checked, and the minutes that a row's windows share. What these are is defined in the crate `windows`.
#![tactic(auto)]

ghost use Rattle.std.specs.Prelude.{◌≡◌, true, ◌+◌, ◌*◌, ◌≤◌, length, take};
ghost use Rattle.std.proofs.Math.Option.{some};
ghost use Rattle.lists.specs.Lists.{sum};
ghost use Rattle.plan.specs.Causes.{refusal, by_number};
ghost use Rattle.rows.specs.RowCall.{fits};
ghost use Rattle.windows.specs.Windows.{window_at, is_window, are_hours, both, is_open, hours_of};
ghost use Rattle.windows.specs.HoursCall.{hours_cause, hours_call, hours_values};

use plan::{Cause, Shape};
use plan_code::{check_plan, count_of};
use rows_code::row;
use windows::Window;

// The minutes of a week.
const WEEK: u32 = 10080;

// The window of the rectangle with this number.
pub fn window_at(hours: &[u32], i: usize) -> Window
    requires { 2 * i + 2 ≤ length hours.now }
    ensures { result ≡ window_at hours.now i }
{
    let at = 2 * i;
    Window {
        from: hours[at],
        to: hours[at + 1],
    }
}

// The minutes in both windows.
pub fn both_of(a: Window, b: Window) -> Window
    ensures { result ≡ both a b }
{
    Window {
        from: a.from.max(b.from),
        to: a.to.min(b.to),
    }
}

// Whether there is a minute in the window.
pub fn is_open(w: Window) -> bool
    ensures { result ≡ is_open w }
{
    w.from < w.to
}

// Whether the cells are the windows of n rectangles.
fn are_hours(hours: &[u32], n: usize) -> bool
    requires { n ≤ 25769803770 }
    ensures { result ≡ are_hours n hours.now }
{
    if hours.len() != 2 * n {
        return false;
    }
    for i in 0..n {
        if !is_window(window_at(hours, i)) {
            return false;
        }
    }
    true
}

// Whether a window is as stated: it ends behind its start, within the week.
pub fn is_window(w: Window) -> bool
    ensures { result ≡ is_window w }
{
    w.from < w.to && w.to <= WEEK
}

// The first of the causes 1, 2, 17, 3, 4 and 24 that applies to a plan with its windows.
pub fn check_hours(shape: Shape, cells: &[i32], hours: &[u32]) -> Result<(), Cause>
    ensures { refusal result ≡ hours_cause (some hours.now) shape cells.now }
{
    check_plan(shape, cells)?;
    if !are_hours(hours, count_of(shape)) {
        return Err(Cause::WrongWindow);
    }
    Ok(())
}

// The first minute that the windows of the row in the lent cells share, and the first after them.
pub fn row_hours(
    shape: Shape,
    cells: &[i32],
    hours: &[u32],
    places: &[u32],
) -> Result<Option<Window>, Cause>
    ensures answer { by_number result ≡ hours_call shape cells.now hours.now places.now }
    ensures values { hours_values (by_number result) ≡ hours_values (hours_call shape cells.now hours.now places.now) }
{
    check_hours(shape, cells, hours)?;
    let Some(_) = row(shape, cells, places)? else {
        return Ok(None);
    };
    let w = row_minutes(&shape.sizes, shape.k as usize, hours, places);
    if is_open(w) { Ok(Some(w)) } else { Ok(None) }
}

// The minutes that the windows of a row of the first k layers share.
pub fn row_minutes(sizes: &[u32], k: usize, hours: &[u32], row: &[u32]) -> Window
    requires le_k { (1 ≤ k) × (k ≤ length sizes.now) }
    requires row_value { fits (take k sizes.now) row.now ≡ true }
    requires sizes_in_bounds { 2 * sum (take k sizes.now) ≤ length hours.now }
    ensures { result ≡ hours_of (take k sizes.now) hours.now row.now }
{
    minutes_in(&sizes[..k], hours, row)
}

fn minutes_in(sizes: &[u32], hours: &[u32], row: &[u32]) -> Window
    requires in_bounds { 1 ≤ length sizes.now }
    requires row_value { fits sizes.now row.now ≡ true }
    requires sizes_in_bounds { 2 * sum sizes.now ≤ length hours.now }
    ensures { result ≡ hours_of sizes.now hours.now row.now }
{
    let mut w = window_at(hours, row[0] as usize);
    let mut start = sizes[0] as usize;
    for j in 1..sizes.len() {
        w = both_of(w, window_at(hours, start + row[j] as usize));
        start += sizes[j] as usize;
    }
    w
}
