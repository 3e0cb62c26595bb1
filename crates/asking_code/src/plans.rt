// A plan text read.
ghost use Rattle.std.specs.Prelude.{◌≡◌, length};
ghost use Rattle.plan.specs.Limits.{most_cells};
ghost use Rattle.plan.specs.Causes.{by_number};
ghost use Rattle.text.specs.Reader.{read_values};
ghost use Rattle.asking_code.specs.Parts.{TextRead};

use outcomes::LONGEST_INPUT;
use plan::{Cause, Shape};
use reader::read;

// A plan text read into lent cells.
pub fn read_text(text: &[u8], cells: &mut [i32]) -> Result<Shape, Cause>
    requires { length cells.old ≡ most_cells }
    ensures { TextRead text.now (read_values (by_number result)) cells.new }
{
    if LONGEST_INPUT < text.len() {
        return Err(Cause::LongInput);
    }
    read(text, cells)
}
