// The lines of `nearest`.
#![tactic(auto, using(pens::proofs::Pens::writing))]

ghost use Rattle.std.specs.Prelude.{◌≡◌, ◌≤◌};
ghost use Rattle.pens.specs.Pens.{RoomFor, wrote};
ghost use Rattle.asking.specs.Lines.{near_line};
ghost use Rattle.asking_code.specs.Parts.{Small, most_gap, none_line, found_line};

use crate::roots::whole_root;
use nearest::Near;
use pens::Pen;
use printing_code::lines::{put_field, put_last, put_metres};

// The line of what lies nearest in a layer.
pub fn put_near(pen: &mut Pen, layer: u32, entry: Option<Near>)
    requires { Small entry × RoomFor pen.old (near_line layer entry) }
    ensures { pen.new ≡ wrote pen.old (near_line layer entry) }
{
    match entry {
        Some(near) => put_found(pen, layer, near.place, near.gap),
        None => put_none(pen, layer),
    }
}

// The line of a layer that has no rectangle.
#[tactic(auto, using(pens::proofs::Pens::writing), unfolding(asking::specs::Lines::near_line, printing::specs::Lines::line_of))]
fn put_none(pen: &mut Pen, layer: u32)
    requires { RoomFor pen.old (none_line layer) }
    ensures { pen.new ≡ wrote pen.old (none_line layer) }
{
    pen.put(b"NONE");
    put_last(pen, layer as u64);
}

// The line of a place and its squared gap: the gap is in millimetres, the root of the squared one in hundredths.
#[tactic(auto, using(pens::proofs::Pens::writing), unfolding(asking::specs::Lines::near_line, printing::specs::Lines::line_of, printing::specs::Lines::square_metres))]
fn put_found(pen: &mut Pen, layer: u32, place: u32, gap: u64)
    requires { (gap ≤ most_gap) × RoomFor pen.old (found_line layer place gap) }
    ensures { pen.new ≡ wrote pen.old (found_line layer place gap) }
{
    let hundredths = whole_root(10000 * gap);
    pen.put(b"NEAR");
    put_field(pen, layer as u64);
    put_field(pen, place as u64);
    put_field(pen, gap);
    put_metres(pen, hundredths / 100, hundredths);
    pen.put_byte(b'\n');
}
