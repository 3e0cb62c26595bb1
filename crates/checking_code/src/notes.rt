// Things that are wrong with well formed lines, told one behind the other.
ghost use Rattle.std.specs.Prelude.{◌≡◌, ◌||◌, ◌++◌, ltb};
ghost use Rattle.lists.specs.inner.Stores.{Put};
ghost use Rattle.checking.specs.Faults.{unless_note, is_from_to, size_of, count_rect, counted_with};
ghost use Rattle.checking.specs.Faults.{missing, layer_faults, surplus, in_reach, side_faults, rect_faults, line_faults};
ghost use Rattle.checking.specs.Check.{more_error};
ghost use Rattle.checking.specs.inner.Words.{reason_text};
ghost use Rattle.checking.specs.inner.Notes.{PenIn, Noted};

use crate::words::put_line_error;
use checking::{Counts, Pen, Reason};
use geometry::Rect;
use line::Line;
use outcomes_code::put_line;
use plan::{MOST_MARGIN, MOST_SIZE};

// No more things are told.
const MOST_NOTES: usize = 64;

// Where more things are wrong than are told.
const ONE_MORE: usize = 65;

// The largest size and the largest margin of a layer.
const LARGEST: i32 = MOST_SIZE as i32;

const WIDEST: i32 = MOST_MARGIN as i32;

// The lowest and the highest coordinate.
const LOWEST: i32 = -10_000_000;

const HIGHEST: i32 = 10_000_000;

// A thing, unless its test was passed; where enough were told, that there is more. The test's result comes along, since each caller would else branch around
// the call and hand on its pen in both branches.
pub fn tell(err: &mut [u8], pen: Pen, right: bool, number: usize, reason: Reason) -> Pen
    requires { PenIn err.old pen }
    ensures { Noted err.old pen (unless_note right number (reason_text reason)) err.new result }
{
    if right {
        return pen;
    }
    if pen.told >= MOST_NOTES {
        return Pen {
            at: pen.at,
            told: ONE_MORE,
        };
    }
    let at = put_line_error(err, pen.at, number, reason);
    Pen {
        at,
        told: pen.told + 1,
    }
}

// Whether z is from `low` to `high`.
pub fn within(low: i32, high: i32, z: i32) -> bool
    ensures { result ≡ is_from_to low high z }
{
    low <= z && z <= high
}

// A number, or 0 where it is below 0.
pub fn size_of(z: i32) -> u32
    ensures { result ≡ size_of z }
{
    z.max(0) as u32
}

// What is counted with one line more.
pub fn count_line(number: usize, c: Counts, line: Line) -> Counts
    ensures { result ≡ counted_with number c line }
{
    match line {
        Line::Plan(_) => c,
        Line::Layer(n, _) => Counts {
            line: number,
            due: size_of(n),
            over: false,
        },
        Line::Rectangle(_) => count_rect(c),
    }
}

// What is counted with one RECT line more.
fn count_rect(c: Counts) -> Counts
    ensures { result ≡ count_rect c }
{
    if c.due == 0 {
        return Counts { over: true, ..c };
    }
    Counts {
        due: c.due - 1,
        over: false,
        ..c
    }
}

// A LAYER line that has not all its RECT lines.
pub fn tell_missing(err: &mut [u8], pen: Pen, c: Counts) -> Pen
    requires { PenIn err.old pen }
    ensures { Noted err.old pen (missing c) err.new result }
{
    tell(err, pen, c.due == 0, c.line, Reason::FewRects)
}

// What is wrong with the numbers of a LAYER line.
fn tell_layer(err: &mut [u8], pen: Pen, number: usize, n: i32, margin: i32) -> Pen
    requires { PenIn err.old pen }
    ensures { Noted err.old pen (layer_faults number n margin) err.new result }
{
    let p = tell(err, pen, within(0, LARGEST, n), number, Reason::WrongSize);
    tell(
        err,
        p,
        within(0, WIDEST, margin),
        number,
        Reason::WrongMargin,
    )
}

// Whether no RECT line is too many, or that was told.
fn enough(c: Counts) -> bool
    ensures { result ≡ (c.over || ltb 0 c.due) }
{
    c.over || 0 < c.due
}

// Why a RECT line is too many.
fn surplus_reason(c: Counts) -> Reason
    ensures { reason_text result ≡ surplus c }
{
    if c.line == 0 {
        return Reason::EarlyRect;
    }
    Reason::ManyRects
}

// Whether all coordinates of a rectangle are in range.
fn in_reach(r: Rect) -> bool
    ensures { result ≡ in_reach r }
{
    within(LOWEST, HIGHEST, r.left)
        & within(LOWEST, HIGHEST, r.bottom)
        & within(LOWEST, HIGHEST, r.right)
        & within(LOWEST, HIGHEST, r.top)
}

// What is wrong with the sides of a rectangle.
fn tell_sides(err: &mut [u8], pen: Pen, number: usize, r: Rect) -> Pen
    requires { PenIn err.old pen }
    ensures { Noted err.old pen (side_faults number r) err.new result }
{
    let p = tell(err, pen, r.left <= r.right, number, Reason::LeftAboveRight);
    let q = tell(err, p, r.bottom <= r.top, number, Reason::BottomAboveTop);
    tell(err, q, in_reach(r), number, Reason::OutOfRange)
}

// What is wrong with a RECT line.
fn tell_rect(err: &mut [u8], pen: Pen, number: usize, c: Counts, r: Rect) -> Pen
    requires { PenIn err.old pen }
    ensures { Noted err.old pen (rect_faults number c r) err.new result }
{
    let p = tell(err, pen, enough(c), number, surplus_reason(c));
    tell_sides(err, p, number, r)
}

// What is wrong with a LAYER line, and with the layer before it.
fn tell_layers(err: &mut [u8], pen: Pen, number: usize, c: Counts, n: i32, margin: i32) -> Pen
    requires { PenIn err.old pen }
    ensures { Noted err.old pen (missing c ++ layer_faults number n margin) err.new result }
{
    let p = tell_missing(err, pen, c);
    tell_layer(err, p, number, n, margin)
}

// What is wrong with a line behind the PLAN line.
pub fn tell_line(err: &mut [u8], pen: Pen, number: usize, c: Counts, line: Line) -> Pen
    requires { PenIn err.old pen }
    ensures { Noted err.old pen (line_faults number c line) err.new result }
{
    match line {
        Line::Plan(_) => pen,
        Line::Layer(n, margin) => tell_layers(err, pen, number, c, n, margin),
        Line::Rectangle(r) => tell_rect(err, pen, number, c, r),
    }
}

// A last line, where more things are wrong than were told; the place behind it.
pub fn put_more(err: &mut [u8], pen: Pen) -> usize
    requires { PenIn err.old pen }
    ensures { Put err.old pen.at (more_error pen.told) err.new result }
{
    if pen.told <= MOST_NOTES {
        return pen.at;
    }
    put_line(err, pen.at, b"overlay: more is wrong")
}
