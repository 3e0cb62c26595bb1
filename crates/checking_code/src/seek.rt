// The first line of a text that is not well formed.
ghost use Rattle.std.specs.Prelude.{◌≡◌, ◌≤◌, length};
ghost use Rattle.checking.specs.Lines.{in_place};
ghost use Rattle.checking.specs.Places.{Spotted, EndsAt};

use checking::Spot;
use lexer::read_line;
use line::Line;
use outcomes_code::next_part;

// Whether a line may stand there: a PLAN line as the first, and LAYER and RECT lines behind it. That it is the first is a fact of the line, no step to run.
fn in_place(first: bool, line: Line) -> bool
    ensures { result ≡ in_place first line }
{
    match line {
        Line::Plan(_) => first,
        Line::Layer(_, _) => !first,
        Line::Rectangle(_) => !first,
    }
}

// Where the first line stands that is not well formed; behind the last line, where all are.
pub fn seek(s: &[u8]) -> Spot
    requires { length s.now ≤ 65536 }
    ensures { Spotted s.now result }
{
    let mut at: usize = 0;
    let mut number: usize = 1;
    let mut first = true;
    while at < s.len() {
        let Some((line, next)) = read_line(s, at) else {
            return Spot { number, at };
        };
        if !in_place(first, line) {
            return Spot { number, at };
        }
        at = next;
        number += 1;
        first = false;
    }
    Spot { number, at }
}

// The place behind the line at a place.
pub fn line_end(s: &[u8], at: usize) -> usize
    requires { at ≤ length s.now }
    ensures { EndsAt s.now at result }
{
    next_part(s, at, b'\n')
}
