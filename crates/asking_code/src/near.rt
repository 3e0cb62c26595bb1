// The command `nearest`.
ghost use Rattle.std.specs.Prelude.{◌≡◌, ◌≤◌};
ghost use Rattle.plan.specs.Plan.{Sound};
ghost use Rattle.pens.specs.Pens.{RoomFor, wrote};
ghost use Rattle.outcomes.specs.Outcomes.{Told};
ghost use Rattle.outcomes.specs.inner.Rooms.{Room};
ghost use Rattle.asking.specs.Lines.{near_lines};
ghost use Rattle.asking.specs.Answers.{near_outcome, nearest_said};
ghost use Rattle.asking_code.specs.Parts.{Measured};

use crate::gaps::put_near;
use crate::plans::read_text;
use geometry::Rect;
use nearest::Near;
use outcomes::Reply;
use outcomes_code::put_refusal;
use pens::Pen;
use plan::{MOST_CELLS, MOST_LAYERS, Shape};
use plan_code::count_of;

// What lies nearest to a box in each layer.
pub fn nearest(text: &[u8], around: Rect, out: &mut [u8], err: &mut [u8]) -> Reply
    requires { Room out.old err.old }
    ensures { Told (nearest_said text.now around) out.old err.old out.new err.new result }
{
    let mut cells = [0i32; MOST_CELLS];
    match read_text(text, &mut cells) {
        Ok(shape) => {
            let n = 4 * count_of(shape);
            tell_nearest(shape, &cells[..n], around, out, err)
        }
        Err(cause) => put_refusal(out, err, cause),
    }
}

// The same of a sound plan.
fn tell_nearest(shape: Shape, cells: &[i32], around: Rect, out: &mut [u8], err: &mut [u8]) -> Reply
    requires { Room out.old err.old × Sound shape cells.now }
    ensures { Told (near_outcome shape cells.now around) out.old err.old out.new err.new result }
{
    match nearest_code::nearest(shape, cells, around) {
        Ok(layers) => {
            let mut pen = Pen { buf: out, at: 0 };
            put_nears(&mut pen, shape.k as usize, layers);
            Reply::done(pen.at)
        }
        Err(cause) => put_refusal(out, err, cause),
    }
}

// The lines of the first k layers.
fn put_nears(pen: &mut Pen, k: usize, layers: [Option<Near>; MOST_LAYERS])
    requires k_bound { (k ≤ 6) × Measured layers }
    requires room { RoomFor pen.old (near_lines k layers) }
    ensures { pen.new ≡ wrote pen.old (near_lines k layers) }
{
    for (j, &near) in layers[..k].iter().enumerate() {
        put_near(pen, j as u32 + 1, near);
    }
}
