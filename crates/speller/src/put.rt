// Lines, written by a pen.
#![tactic(auto, using(pens::proofs::Pens::writing))]

ghost use Rattle.std.specs.Prelude.{◌≡◌, [], pos};
ghost use Rattle.line.specs.declared.Line.TheVariants.{Plan, Layer, Rectangle};
ghost use Rattle.line.specs.Lines.{put_field, spell_to};
ghost use Rattle.pens.specs.Pens.{RoomFor, wrote};

use crate::numbers::{put_natural, put_number};
use geometry::Rect;
use pens::Pen;

// The PLAN line of k.
pub fn put_plan_line(pen: &mut Pen, k: u32)
    requires { RoomFor pen.old (spell_to (Plan (pos k)) []) }
    ensures { pen.new ≡ wrote pen.old (spell_to (Plan (pos k)) []) }
{
    pen.put(b"PLAN\t");
    put_count(pen, k, b'\n');
}

// The LAYER line of a size and a margin.
pub fn put_layer_line(pen: &mut Pen, n: u32, margin: u32)
    requires { RoomFor pen.old (spell_to (Layer (pos n) (pos margin)) []) }
    ensures { pen.new ≡ wrote pen.old (spell_to (Layer (pos n) (pos margin)) []) }
{
    pen.put(b"LAYER\t");
    put_count(pen, n, b'\t');
    put_count(pen, margin, b'\n');
}

// The RECT line of a rectangle.
pub fn put_rect_line(pen: &mut Pen, r: Rect)
    requires { RoomFor pen.old (spell_to (Rectangle r) []) }
    ensures { pen.new ≡ wrote pen.old (spell_to (Rectangle r) []) }
{
    pen.put(b"RECT\t");
    put_corner(pen, r.left, r.bottom, b'\t');
    put_corner(pen, r.right, r.top, b'\n');
}

// A number that is not below 0, and the byte that ends its field.
#[tactic(auto, using(pens::proofs::Pens::writing), unfolding(decimal::specs::Numerals::numeral))]
fn put_count(pen: &mut Pen, n: u32, end: u8)
    requires { RoomFor pen.old (put_field (pos n) end []) }
    ensures { pen.new ≡ wrote pen.old (put_field (pos n) end []) }
{
    put_natural(pen, n as u64);
    pen.put_byte(end);
}

// The two fields of a corner, the second ended by the byte `end`.
fn put_corner(pen: &mut Pen, x: i32, y: i32, end: u8)
    requires { RoomFor pen.old (put_field x 9 (put_field y end [])) }
    ensures { pen.new ≡ wrote pen.old (put_field x 9 (put_field y end [])) }
{
    put_field(pen, x, b'\t');
    put_field(pen, y, end);
}

// A number and the byte that ends its field.
fn put_field(pen: &mut Pen, z: i32, end: u8)
    requires { RoomFor pen.old (put_field z end []) }
    ensures { pen.new ≡ wrote pen.old (put_field z end []) }
{
    put_number(pen, z);
    pen.put_byte(end);
}
