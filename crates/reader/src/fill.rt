// The reader's second pass: the cells of an accepted text.
ghost use Rattle.std.specs.Prelude.{[], ◌∷◌, ◌+◌, ◌≤◌, length, drop};
ghost use Rattle.lists.specs.inner.Stores.{Put};
ghost use Rattle.line.specs.declared.Line.TheVariants.{Rectangle};
ghost use Rattle.text.specs.Plans.{cells_in};
ghost use Rattle.text.specs.inner.Filling.{rest_cells, LinesFit};

use lexer::read_line;
use line::Line;
use plan_code::put_rect;

// The cells that a line gives, from a place on; the place behind them.
fn put_line(cells: &mut [i32], i: usize, line: Line) -> usize
    requires { i + length (cells_in (line ∷ [])) ≤ length cells.old }
    ensures { Put cells.old i (cells_in (line ∷ [])) cells.new result }
{
    match line {
        Line::Plan(_) => i,
        Line::Layer(_, _) => i,
        Line::Rectangle(r) => put_rect(cells, i, r),
    }
}

// The cells that all lines from a place on give, from the first cell on.
pub fn fill(s: &[u8], from: usize, cells: &mut [i32]) -> usize
    requires { LinesFit s.now from (length cells.old) }
    ensures { Put cells.old 0 (rest_cells (drop from s.now)) cells.new result }
{
    let mut at = from;
    let mut i: usize = 0;
    while at < s.len() {
        let Some((line, next)) = read_line(s, at) else {
            return i;
        };
        i = put_line(cells, i, line);
        at = next;
    }
    i
}
