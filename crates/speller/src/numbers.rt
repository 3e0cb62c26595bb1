// Whole numbers in base ten, measured and written: any unsigned number of 64 bits, and signed ones. Powers of ten are worked out, each
// ten times the one before.
ghost use Rattle.std.specs.Prelude.{◌≡◌, true, ◌+◌, ◌<◌, ◌≤◌, length, nat_abs};
ghost use Rattle.decimal.specs.Numerals.{size, decimal, numeral, short};
ghost use Rattle.lists.specs.inner.Stores.{Put};
ghost use Rattle.pens.specs.Pens.{RoomFor, wrote};

use pens::Pen;

// How many digits n has. `next` is ten to the power c + 1: each power is ten times the one before, and no table of them stands behind a call (02, Q-3).
pub fn size_of(n: u64) -> usize
    ensures { result ≡ size 19 n }
{
    let mut next: u64 = 10;
    for c in 0..18 {
        if n < next {
            return c + 1;
        }
        next *= 10;
    }
    if n < next { 19 } else { 20 }
}

// The digits of n from a place of the buffer on; the place behind them. The last digit is stored first, so that each
// step divides by ten alone.
pub fn put_decimal(buf: &mut [u8], at: usize, n: u64) -> usize
    requires { at + length (decimal n) ≤ length buf.old }
    ensures { Put buf.old at (decimal n) buf.new result }
{
    let end = at + size_of(n);
    let mut m = n;
    for i in (at..end).rev() {
        buf[i] = 48 + (m % 10) as u8;
        m /= 10;
    }
    end
}

// The digits of n.
pub fn put_natural(pen: &mut Pen, n: u64)
    requires { RoomFor pen.old (decimal n) }
    ensures { pen.new ≡ wrote pen.old (decimal n) }
{
    let at = pen.at;
    pen.at = put_decimal(pen.buf, at, n);
}

// How many bytes a short number takes.
pub fn numeral_size(z: i32) -> usize
    requires { short z ≡ true }
    ensures { result ≡ length (numeral z) }
{
    let n = size_of(z.unsigned_abs() as u64);
    if z < 0 {
        return 1 + n;
    }
    n
}

// A number, which may be below 0.
pub fn put_number(pen: &mut Pen, z: i32)
    requires { RoomFor pen.old (numeral z) }
    ensures { pen.new ≡ wrote pen.old (numeral z) }
{
    let n = z.unsigned_abs() as u64;
    if z < 0 {
        pen.put_byte(b'-');
        put_natural(pen, n);
        return;
    }
    put_natural(pen, n);
}
