// A windows text, read line by line.
ghost use Rattle.std.specs.Prelude.{◌≡◌, ◌*◌, ◌≤◌, length, drop};
ghost use Rattle.checking.specs.Places.{first_line};
ghost use Rattle.listing.specs.Reasons.{reason_number};
ghost use Rattle.listing.specs.Windows.{window_fields, minute_of, fields_due, line_due, window_due, beyond};
ghost use Rattle.listing.specs.inner.Parts.{Takes, judged_at, told_reason, ReadInto};

use crate::line_reasons::line_reason;
use checking_code::line_end;
use decimal::Kind;
use lexer::{read_field, starts};
use listing::{Fault, Reason};
use windows::Window;
use windows_code::is_window;

// The first minute behind those that a window may end with.
const NO_MINUTE: u32 = 10081;

// A number as a minute; one below 0 is none of the week.
fn minute_of(z: i32) -> u32
    ensures { result ≡ minute_of z }
{
    u32::try_from(z).unwrap_or(NO_MINUTE)
}

// A window, if it is one, and the place behind its line.
fn judge(from: u32, to: u32, next: usize) -> Result<(Window, usize), Reason>
    ensures { result ≡ judged_at from to next }
{
    let window = Window { from, to };
    if is_window(window) {
        return Ok((window, next));
    }
    Err(Reason::WrongWindow)
}

// The window whose two fields stand at a place, and the place behind its line; or what is wrong.
fn take_fields(t: &[u8], at: usize) -> Result<(Window, usize), Reason>
    ensures { Takes t.now (fields_due (window_fields (drop at t.now))) result }
{
    let Some((from, a)) = read_field(t, at, Kind::Tab) else {
        return Err(Reason::OtherNumbers);
    };
    let Some((to, b)) = read_field(t, a, Kind::End) else {
        return Err(Reason::OtherNumbers);
    };
    judge(minute_of(from), minute_of(to), b)
}

// The window of the line at a place.
fn take_line(t: &[u8], at: usize) -> Result<(Window, usize), Reason>
    requires { at ≤ length t.now }
    ensures { Takes t.now (line_due (drop at t.now)) result }
{
    if starts(t, at, b"WINDOW\t") {
        return take_fields(t, at + 7);
    }
    Err(Reason::OtherNumbers)
}

// What is told of the line at a place, where `reason` was found wrong.
fn told_reason(t: &[u8], at: usize, reason: Reason) -> Reason
    requires { at ≤ length t.now }
    ensures { reason_number result ≡ told_reason reason (first_line (drop at t.now)) }
{
    match reason {
        Reason::OtherNumbers => {
            let end = line_end(t, at);
            line_reason(&t[at..end])
        }
        _ => reason,
    }
}

// The window whose line stands at a place.
fn take_window(t: &[u8], at: usize) -> Result<(Window, usize), Reason>
    requires { at ≤ length t.now }
    ensures { Takes t.now (window_due (drop at t.now)) result }
{
    if t.len() <= at {
        return Err(Reason::FewWindows);
    }
    match take_line(t, at) {
        Ok(taken) => Ok(taken),
        Err(reason) => Err(told_reason(t, at, reason)),
    }
}

// What is wrong with the line at a place behind the last window: a well formed one is a window too many.
fn reason_beyond(t: &[u8], at: usize) -> Reason
    requires { at ≤ length t.now }
    ensures { reason_number result ≡ beyond (window_due (drop at t.now)) }
{
    match take_window(t, at) {
        Ok(_) => Reason::ManyWindows,
        Err(Reason::WrongWindow) => Reason::ManyWindows,
        Err(reason) => reason,
    }
}

// The windows of n rectangles into the first of the lent cells, and what is wrong in the text.
pub fn read_windows(t: &[u8], n: usize, hours: &mut [u32]) -> Result<(), Fault>
    requires { (n ≤ 3072) × (2 * n ≤ length hours.old) }
    ensures { ReadInto t.now n hours.old result hours.new }
{
    let mut at: usize = 0;
    for i in 0..n {
        match take_window(t, at) {
            Ok((window, next)) => {
                hours[2 * i] = window.from;
                hours[2 * i + 1] = window.to;
                at = next;
            }
            Err(reason) => {
                return Err(Fault {
                    reason,
                    line: i as u32 + 1,
                });
            }
        }
    }
    if at < t.len() {
        return Err(Fault {
            reason: reason_beyond(t, at),
            line: n as u32 + 1,
        });
    }
    Ok(())
}
