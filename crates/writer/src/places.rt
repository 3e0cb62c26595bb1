// A layer's lines at a place of a buffer, for what does not hold a pen yet.
ghost use Rattle.std.specs.Prelude.{◌≡◌, true, ◌∷◌, ◌+◌, ◌*◌, ◌≤◌, pos, length};
ghost use Rattle.lists.specs.inner.Stores.{Put};
ghost use Rattle.line.specs.declared.Line.TheVariants.{Layer};
ghost use Rattle.text.specs.Spelling.{spell, all_short};
ghost use Rattle.text.specs.Plans.{rect_lines};

use crate::put;
use pens::Pen;

// The LAYER line and the RECT lines of a layer; the place behind them.
#[tactic(auto, unfolding(pens::specs::Pens::place, pens::specs::Pens::capacity, pens::specs::Pens::wrote))]
pub fn put_layer(buf: &mut [u8], at: usize, n: u32, margin: u32, cells: &[i32]) -> usize
    requires cells_len { (length cells.now ≡ 4 * n) × (all_short (rect_lines cells.now) ≡ true) }
    requires cells_in_bounds { at + length (spell (Layer (pos n) (pos margin) ∷ rect_lines cells.now)) ≤ length buf.old }
    ensures { Put buf.old at (spell (Layer (pos n) (pos margin) ∷ rect_lines cells.now)) buf.new result }
{
    let mut pen = Pen { buf, at };
    put::put_layer(&mut pen, n, margin, cells);
    pen.at
}
