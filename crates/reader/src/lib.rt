// The plan text read into a shape and lent cells. What the reader answers is defined in the crate `text`.
//
// It goes over the text twice: once to decide, without writing, and once to fill the cells.
#![tactic(auto)]

mod decide;
mod fill;

ghost use Rattle.std.specs.Prelude.{◌≡◌, length};
ghost use Rattle.plan.specs.Causes.{refusal, by_number};
ghost use Rattle.text.specs.Reader.{read_cause, read_answer, cells_after};

use decide::decide;
use fill::fill;
use plan::{Cause, Shape};

// Reads a plan text into lent cells, and tells the plan's shape.
pub fn read(text: &[u8], cells: &mut [i32]) -> Result<Shape, Cause>
    ensures answer { by_number result ≡ read_answer (length cells.old) text.now }
    ensures number { refusal result ≡ read_cause (length cells.old) text.now }
    ensures buffer { cells.new ≡ cells_after text.now cells.old }
{
    let d = decide(text, cells.len())?;
    fill(text, d.next, cells);
    Ok(d.shape)
}
