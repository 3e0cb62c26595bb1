// The command `apart`.
ghost use Rattle.std.specs.Prelude.{◌≡◌};
ghost use Rattle.pairs.specs.PairCall.{pair_call};
ghost use Rattle.pens.specs.Pens.{RoomFor, wrote};
ghost use Rattle.outcomes.specs.Outcomes.{Told};
ghost use Rattle.outcomes.specs.inner.Rooms.{Room};
ghost use Rattle.asking.specs.Lines.{share_line, apart_line};
ghost use Rattle.asking.specs.Answers.{pair_outcome, apart_of};

use crate::plans::read_text;
use outcomes::Reply;
use outcomes_code::put_refusal;
use pairs_code::apart_pair;
use pens::Pen;
use plan::{MOST_CELLS, Shape};
use plan_code::count_of;
use printing_code::lines::{put_field, put_last};

// Whether the rectangles at the places share a point, or the first two layers whose two do not meet.
pub fn apart(text: &[u8], places: &[u32], out: &mut [u8], err: &mut [u8]) -> Reply
    requires { Room out.old err.old }
    ensures { Told (apart_of text.now places.now)
        out.old err.old out.new err.new result }
{
    let mut cells = [0i32; MOST_CELLS];
    match read_text(text, &mut cells) {
        Ok(shape) => {
            let n = 4 * count_of(shape);
            tell_apart(shape, &cells[..n], places, out, err)
        }
        Err(cause) => put_refusal(out, err, cause),
    }
}

// The same of a plan.
fn tell_apart(shape: Shape, cells: &[i32], places: &[u32], out: &mut [u8], err: &mut [u8]) -> Reply
    requires { Room out.old err.old }
    ensures { Told (pair_outcome (pair_call shape cells.now places.now))
        out.old err.old out.new err.new result }
{
    match apart_pair(shape, cells, places) {
        Err(cause) => put_refusal(out, err, cause),
        Ok(None) => {
            let mut pen = Pen { buf: out, at: 0 };
            put_share(&mut pen);
            Reply::done(pen.at)
        }
        Ok(Some(pair)) => {
            let mut pen = Pen { buf: out, at: 0 };
            put_apart(&mut pen, pair.lower, pair.higher);
            Reply::done(pen.at)
        }
    }
}

// The SHARE line.
#[tactic(auto, using(pens::proofs::Pens::writing), unfolding(asking::specs::Lines::share_line, printing::specs::Lines::line_of))]
fn put_share(pen: &mut Pen)
    requires { RoomFor pen.old share_line }
    ensures { pen.new ≡ wrote pen.old share_line }
{
    pen.put(b"SHARE\n");
}

// The APART line.
#[tactic(auto, using(pens::proofs::Pens::writing), unfolding(asking::specs::Lines::apart_line, printing::specs::Lines::line_of))]
fn put_apart(pen: &mut Pen, lower: u32, higher: u32)
    requires { RoomFor pen.old (apart_line lower higher) }
    ensures { pen.new ≡ wrote pen.old (apart_line lower higher) }
{
    pen.put(b"APART");
    put_field(pen, lower as u64);
    put_last(pen, higher as u64);
}
