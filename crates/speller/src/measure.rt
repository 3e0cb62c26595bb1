// How many bytes a line takes, before it is put.
ghost use Rattle.std.specs.Prelude.{◌≡◌, true, [], ◌+◌, pos, length};
ghost use Rattle.decimal.specs.Numerals.{numeral, short};
ghost use Rattle.line.specs.declared.Line.TheVariants.{Plan, Layer, Rectangle};
ghost use Rattle.line.specs.Lines.{spell_to, short_rect};

use crate::numbers::{numeral_size, size_of};
use geometry::Rect;

// The length of the PLAN line of k.
pub fn plan_line_size(k: u32) -> usize
    ensures { result ≡ length (spell_to (Plan (pos k)) []) }
{
    6 + size_of(k as u64)
}

// The length of the LAYER line of a size and a margin.
pub fn layer_line_size(n: u32, margin: u32) -> usize
    ensures { result ≡ length (spell_to (Layer (pos n) (pos margin)) []) }
{
    8 + size_of(n as u64) + size_of(margin as u64)
}

// The length of the RECT line of a rectangle.
pub fn rect_line_size(r: Rect) -> usize
    requires { short_rect r ≡ true }
    ensures { result ≡ length (spell_to (Rectangle r) []) }
{
    5 + corner_size(r.left, r.bottom) + corner_size(r.right, r.top)
}

// The length of the two fields of a corner, each with the byte that ends it.
fn corner_size(x: i32, y: i32) -> usize
    requires { (short x ≡ true) × (short y ≡ true) }
    ensures { result ≡ 2 + length (numeral x) + length (numeral y) }
{
    2 + numeral_size(x) + numeral_size(y)
}
