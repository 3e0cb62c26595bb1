// Texts with holes, written with numbers in their holes.
ghost use Rattle.std.specs.Prelude.{◌≡◌, ◌≤◌, nat_abs, length, drop};
ghost use Rattle.decimal.specs.Numerals.{numeral};
ghost use Rattle.pens.specs.Pens.{RoomFor, wrote};
ghost use Rattle.picture.specs.Templates.{piece, later, fill};

use pens::Pen;
use speller::put_natural;

// A number without its sign.
fn size_of(z: i64) -> u64
    ensures { result ≡ nat_abs z }
{
    z.unsigned_abs()
}

// A number.
fn put_number(pen: &mut Pen, z: i64)
    requires { RoomFor pen.old (numeral z) }
    ensures { pen.new ≡ wrote pen.old (numeral z) }
{
    let n = size_of(z);
    if z < 0 {
        pen.put_byte(b'-');
        put_natural(pen, n);
        return;
    }
    put_natural(pen, n);
}

// What a byte of a text becomes, where the numbers from j on are left.
fn put_piece(pen: &mut Pen, b: u8, numbers: &[i64], j: usize)
    requires { (j ≤ length numbers.now) × RoomFor pen.old (piece b (drop j numbers.now)) }
    ensures { pen.new ≡ wrote pen.old (piece b (drop j numbers.now)) }
{
    if b != b'@' {
        pen.put_byte(b);
        return;
    }
    if numbers.len() <= j {
        pen.put_byte(b);
        return;
    }
    put_number(pen, numbers[j]);
}

// Which number is next behind a byte.
fn next_number(b: u8, numbers: &[i64], j: usize) -> usize
    requires { j ≤ length numbers.now }
    ensures { (result ≤ length numbers.now) × (drop result numbers.now ≡ later b (drop j numbers.now)) }
{
    if b == b'@' {
        if j < numbers.len() {
            return j + 1;
        }
    }
    j
}

// A text with numbers in its holes.
pub fn put_filled(pen: &mut Pen, text: &[u8], numbers: &[i64])
    requires { RoomFor pen.old (fill text.now numbers.now) }
    ensures { pen.new ≡ wrote pen.old (fill text.now numbers.now) }
{
    let mut j: usize = 0;
    for b in text {
        put_piece(pen, *b, numbers, j);
        j = next_number(*b, numbers, j);
    }
}
