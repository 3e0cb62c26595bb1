// The plan text written from a shape and lent cells. What the writer answers is defined in the crate `text`.
#![tactic(auto)]

mod measure;
mod places;
mod put;

ghost use Rattle.std.specs.Prelude.{◌≡◌, length};
ghost use Rattle.plan.specs.Causes.{by_number};
ghost use Rattle.text.specs.Writer.{write_cause, write_answer, number_said, length_of, buffer_after};

use measure::text_size;
pub use places::put_layer;
use plan::{Cause, Shape};
use plan_code::check_plan;
use put::put_plan;

// Writes the text of a plan at the start of a lent buffer, and tells its length.
pub fn write(shape: Shape, cells: &[i32], buf: &mut [u8]) -> Result<usize, Cause>
    ensures answer { by_number result ≡ write_answer shape cells.now (length buf.old) }
    ensures number { number_said (by_number result) ≡ write_cause shape cells.now (length buf.old) }
    ensures length { length_of (by_number result) ≡ length_of (write_answer shape cells.now (length buf.old)) }
    ensures buffer { buf.new ≡ buffer_after shape cells.now buf.old }
{
    check_plan(shape, cells)?;
    let size = text_size(shape, cells);
    if buf.len() < size {
        return Err(Cause::SmallTextBuffer);
    }
    put_plan(buf, shape, cells);
    Ok(size)
}
