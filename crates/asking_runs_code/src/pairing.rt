// The command `pairs`.
ghost use Rattle.std.specs.Prelude.{◌≡◌};
ghost use Rattle.pens.specs.Pens.{RoomFor, wrote};
ghost use Rattle.plan.specs.Plan.{Sound};
ghost use Rattle.outcomes.specs.Outcomes.{Told};
ghost use Rattle.outcomes.specs.inner.Rooms.{Room};
ghost use Rattle.asking.specs.Lines.{count_line};
ghost use Rattle.asking.specs.Answers.{pairs_outcome, pairs_of};
ghost use Rattle.asking_runs_code.specs.Listing.{Lent};

use crate::Listed;
use crate::every::list_all;
use asking_code::read_text;
use outcomes::Reply;
use outcomes_code::{put_misuse, put_refusal};
use pens::Pen;
use plan::{MOST_CELLS, Shape};
use plan_code::count_of;
use printing_code::lines::put_last;

// The rows of each two layers; with the number of a layer, of each two of which it is one. 0 asks for all.
pub fn pairs(
    text: &[u8],
    layer: u32,
    table: &mut [u32],
    work: &mut [i32],
    out: &mut [u8],
    err: &mut [u8],
) -> Reply
    requires { Room out.old err.old × Lent table.old work.old }
    ensures { Told (pairs_of text.now layer) out.old err.old out.new err.new result }
{
    let mut cells = [0i32; MOST_CELLS];
    match read_text(text, &mut cells) {
        Ok(shape) => {
            let n = 4 * count_of(shape);
            tell_pairs(shape, &cells[..n], layer, table, work, out, err)
        }
        Err(cause) => put_refusal(out, err, cause),
    }
}

// The same of a sound plan.
fn tell_pairs(
    shape: Shape,
    cells: &[i32],
    layer: u32,
    table: &mut [u32],
    work: &mut [i32],
    out: &mut [u8],
    err: &mut [u8],
) -> Reply
    requires { Room out.old err.old × Sound shape cells.now × Lent table.old work.old }
    ensures { Told (pairs_outcome shape cells.now layer) out.old err.old out.new err.new result }
{
    if shape.k < layer {
        return put_misuse(out, err, b"the plan has no layer of this number");
    }
    let listed = list_all(
        shape,
        cells,
        layer,
        table,
        work,
        out,
        Listed { at: 0, rows: 0 },
    );
    let mut pen = Pen {
        buf: out,
        at: listed.at,
    };
    put_count(&mut pen, listed.rows);
    Reply::done(pen.at)
}

// The TOTAL line.
#[tactic(auto, using(pens::proofs::Pens::writing), unfolding(asking::specs::Lines::count_line, printing::specs::Lines::line_of))]
fn put_count(pen: &mut Pen, rows: u32)
    requires { RoomFor pen.old (count_line rows) }
    ensures { pen.new ≡ wrote pen.old (count_line rows) }
{
    pen.put(b"TOTAL");
    put_last(pen, rows as u64);
}
