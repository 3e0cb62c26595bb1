// The reader's first pass: the causes 9, 10 and 11.
ghost use Rattle.std.specs.Prelude.{◌≡◌, ◌≤◌, length, drop};
ghost use Rattle.line.specs.declared.Line.TheVariants.{Plan};
ghost use Rattle.line.specs.Places.{Line-at};
ghost use Rattle.plan.specs.Causes.{refusal};
ghost use Rattle.text.specs.inner.Filling.{Decided};
ghost use Rattle.text.specs.inner.Counting.{none_yet, unformed, spoilt, up_to, layer_right, add_layer, add_rect, add_line, tally_from, Few, layers_right, tally_cause};

use geometry::Rect;
use geometry_code::in_range;
use lexer::read_line;
use line::Line;
use plan::{Cause, MOST_LAYERS, MOST_MARGIN, MOST_SIZE, Shape};
use text::{Decision, Tally};

// The most layers of a plan, and the largest size and the largest margin of one.
const DEEPEST: i32 = MOST_LAYERS as i32;

const LARGEST: i32 = MOST_SIZE as i32;

const WIDEST: i32 = MOST_MARGIN as i32;

// Nothing counted yet.
fn none_yet() -> Tally
    ensures { result ≡ none_yet }
{
    Tally {
        formed: true,
        good: true,
        due: 0,
        layers: 0,
        rects: 0,
        sizes: [0u32; MOST_LAYERS],
        margins: [0u32; MOST_LAYERS],
    }
}

// The tally of a text that is not well formed.
fn not_formed() -> Tally
    ensures { result ≡ unformed }
{
    Tally {
        formed: false,
        good: false,
        ..none_yet()
    }
}

// The tally with something miscounted.
fn spoil(t: Tally) -> Tally
    ensures { result ≡ spoilt t }
{
    let mut u = t;
    u.good = false;
    u
}

// Whether n is from 0 to `most`.
fn up_to(most: i32, n: i32) -> bool
    ensures { result ≡ up_to most n }
{
    (0..=most).contains(&n)
}

// Whether a LAYER line of this size and margin may come.
fn layer_right(t: Tally, n: i32, margin: i32) -> bool
    ensures { result ≡ layer_right t n margin }
{
    t.due == 0 && t.layers < MOST_LAYERS && up_to(LARGEST, n) && up_to(WIDEST, margin)
}

// One layer more.
fn add_layer(t: Tally, n: i32, margin: i32) -> Tally
    requires { Few t }
    ensures { result ≡ add_layer t n margin }
{
    if !layer_right(t, n, margin) {
        return spoil(t);
    }
    let j = t.layers;
    let size = n as u32;
    let mut u = t;
    u.due = size;
    u.layers = j + 1;
    u.rects = t.rects + size as usize;
    u.sizes[j] = size;
    u.margins[j] = margin as u32;
    u
}

// One rectangle more.
fn add_rect(t: Tally, r: Rect) -> Tally
    ensures { result ≡ add_rect t r }
{
    if t.due == 0 || !in_range(r) {
        return spoil(t);
    }
    let mut u = t;
    u.due = t.due - 1;
    u
}

// One line more behind the PLAN line.
fn add_line(t: Tally, line: Line) -> Tally
    requires { Few t }
    ensures { result ≡ add_line t line }
{
    match line {
        Line::Plan(_) => not_formed(),
        Line::Layer(n, margin) => add_layer(t, n, margin),
        Line::Rectangle(r) => add_rect(t, r),
    }
}

// All lines from a place to the end.
fn tally(s: &[u8], from: usize) -> Tally
    requires { from ≤ length s.now }
    ensures { result ≡ tally_from none_yet (drop from s.now) }
{
    let mut at = from;
    let mut t = none_yet();
    while at < s.len() {
        let Some((line, next)) = read_line(s, at) else {
            return not_formed();
        };
        t = add_line(t, line);
        if !t.formed {
            return t;
        }
        at = next;
    }
    t
}

// The cause 9 or 10, where the PLAN line says k.
fn check_tally(k: i32, t: Tally) -> Result<(), Cause>
    ensures { refusal result ≡ tally_cause k t }
{
    if !t.formed {
        return Err(Cause::MalformedText);
    }
    if !t.good || t.due != 0 || !layers_right(k, t.layers) {
        return Err(Cause::WrongPlanText);
    }
    Ok(())
}

// Whether k is from 2 to 6, and n layers are as many.
fn layers_right(k: i32, n: usize) -> bool
    ensures { result ≡ layers_right k n }
{
    (2..=DEEPEST).contains(&k) && k as usize == n
}

// Decides on a text whose PLAN line says k and ends at `next`, where `room` cells are lent.
fn decide_on(s: &[u8], k: i32, next: usize, room: usize) -> Result<Decision, Cause>
    requires { Line-at s.now 0 (Plan k) next }
    ensures { Decided s.now room result }
{
    let t = tally(s, next);
    check_tally(k, t)?;
    if room < 4 * t.rects {
        return Err(Cause::FewCells);
    }
    let sizes = t.sizes;
    let margins = t.margins;
    let shape = Shape {
        k: k as u32,
        sizes,
        margins,
    };
    Ok(Decision { shape, next })
}

// Decides on a text, where `room` cells are lent.
pub fn decide(s: &[u8], room: usize) -> Result<Decision, Cause>
    ensures { Decided s.now room result }
{
    let Some((line, next)) = read_line(s, 0) else {
        return Err(Cause::MalformedText);
    };
    match line {
        Line::Plan(k) => decide_on(s, k, next, room),
        Line::Layer(_, _) => Err(Cause::MalformedText),
        Line::Rectangle(_) => Err(Cause::MalformedText),
    }
}
