// All things that are wrong with the lines of a well formed text.
ghost use Rattle.std.specs.Prelude.{◌≡◌, true, ◌≤◌, length, drop};
ghost use Rattle.lists.specs.Lists.{is_some, list_in};
ghost use Rattle.text.specs.Parsing.{all_lines, lines_of};
ghost use Rattle.outcomes.specs.inner.Rooms.{room_for_words};
ghost use Rattle.checking.specs.Faults.{no_counts, one_if_layer, layer_lines, faults_from, plan_faults};
ghost use Rattle.checking.specs.Check.{fault_errors};
ghost use Rattle.checking.specs.Places.{PutWords};
ghost use Rattle.checking.specs.inner.Notes.{PenIn, Noted, LinesFrom, Headed};

use crate::notes::{count_line, put_more, size_of, tell, tell_line, tell_missing, within};
use checking::{Counts, Pen, Reason};
use lexer::read_line;
use line::Line;

// 1 of a LAYER line, 0 of another.
fn layer_line(line: Line) -> usize
    ensures { result ≡ one_if_layer line }
{
    match line {
        Line::Plan(_) => 0,
        Line::Layer(_, _) => 1,
        Line::Rectangle(_) => 0,
    }
}

// How many LAYER lines there are from a place on.
fn layers_from(text: &[u8], from: usize) -> usize
    requires { LinesFrom text.now from }
    ensures { result ≡ layer_lines (list_in (all_lines (drop from text.now))) }
{
    let mut at = from;
    let mut count: usize = 0;
    while at < text.len() {
        let Some((line, next)) = read_line(text, at) else {
            return count;
        };
        count += layer_line(line);
        at = next;
    }
    count
}

// What is wrong with all lines from a place on, behind the PLAN line.
fn tell_lines(text: &[u8], from: usize, err: &mut [u8], pen: Pen) -> Pen
    requires { LinesFrom text.now from × PenIn err.old pen }
    ensures { Noted err.old pen (faults_from 2 no_counts (list_in (all_lines (drop from text.now)))) err.new result }
{
    let mut at = from;
    let mut number: usize = 2;
    let mut p = pen;
    let mut c = Counts {
        line: 0,
        due: 0,
        over: false,
    };
    while at < text.len() {
        let Some((line, next)) = read_line(text, at) else {
            return p;
        };
        p = tell_line(err, p, number, c, line);
        c = count_line(number, c, line);
        number += 1;
        at = next;
    }
    tell_missing(err, p, c)
}

// What is wrong with a PLAN line that says k, before so many LAYER lines.
fn tell_plan(err: &mut [u8], k: i32, layers: usize) -> Pen
    requires { room_for_words ≤ length err.old }
    ensures { Noted err.old (record { at = 0; told = 0 }) (plan_faults k layers) err.new result }
{
    let p = tell(
        err,
        Pen { at: 0, told: 0 },
        within(2, 6, k),
        1,
        Reason::WrongLayerCount,
    );
    tell(
        err,
        p,
        size_of(k) as usize == layers,
        1,
        Reason::OtherLayerCount,
    )
}

// What is wrong with a text whose PLAN line says k and ends at `next`; the length of the lines that say so.
fn put_lines(text: &[u8], k: i32, next: usize, err: &mut [u8]) -> usize
    requires { Headed text.now k next × (length text.now ≤ 65536) × (room_for_words ≤ length err.old) }
    ensures { PutWords err.old (fault_errors (list_in (lines_of text.now))) err.new result }
{
    let layers = layers_from(text, next);
    let p = tell_plan(err, k, layers);
    let q = tell_lines(text, next, err, p);
    put_more(err, q)
}

// What is wrong with a well formed text; the length of the lines that say so.
pub fn put_faults(text: &[u8], err: &mut [u8]) -> usize
    requires { (is_some (lines_of text.now) ≡ true) × (length text.now ≤ 65536) × (room_for_words ≤ length err.old) }
    ensures { PutWords err.old (fault_errors (list_in (lines_of text.now))) err.new result }
{
    let Some((line, next)) = read_line(text, 0) else {
        return 0;
    };
    match line {
        Line::Plan(k) => put_lines(text, k, next, err),
        Line::Layer(_, _) => 0,
        Line::Rectangle(_) => 0,
    }
}
