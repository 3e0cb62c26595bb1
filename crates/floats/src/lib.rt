// 64-bit floats as exact values: which are finite, and what a value is taken down or up to in whole numbers.
//
// A value is taken apart by its bits, so nothing is rounded on the way.
#![tactic(auto)]

ghost use Rattle.std.specs.Prelude.{◌≡◌, cond, ◌+◌, ◌≤◌, T, pos, neg_ℤ};
ghost use Rattle.floats.specs.Values.{floor_of, ceil_of, finite};
ghost use Rattle.floats.specs.Parts.{near, farthest, Parts, CutOf, field_of};

// A float's size cut to a whole number, whether anything was cut off, and its sign.
#[derive(Clone, Copy)]
pub struct Cut {
    pub below: bool,
    pub whole: u64,
    pub rest: bool,
}

// Whether x is a value: neither an infinity nor nan.
pub fn is_finite(x: f64) -> bool
    ensures { result ≡ finite x }
{
    let above = f64::from_bits(0x7ff0_0000_0000_0000);
    let below = f64::from_bits(0xfff0_0000_0000_0000);
    below < x && x < above
}

// Whether x is near enough to 0 to be taken down or up to 32 bits.
pub fn is_near(x: f64) -> bool
    ensures { result ≡ near x }
{
    -1073741824.0 <= x && x <= 1073741824.0
}

// The greatest whole number that is not above x.
pub fn floor(x: f64) -> i32
    requires { T (near x) }
    ensures { result ≡ floor_of x }
{
    let c = taken_apart(x);
    signed(c.below, c.whole + u64::from(c.below & c.rest))
}

// The least whole number that is not below x.
pub fn ceil(x: f64) -> i32
    requires { T (near x) }
    ensures { result ≡ ceil_of x }
{
    let c = taken_apart(x);
    signed(c.below, c.whole + u64::from(!c.below & c.rest))
}

fn taken_apart(x: f64) -> Cut
    requires { T (near x) }
    ensures { Parts x result.below result.whole result.rest }
{
    apart_by_bits(f64::to_bits(x))
}

// The parts that a pattern's sign, exponent and digits stand for.
fn apart_by_bits(bits: u64) -> Cut
    requires { field_of bits ≤ 1074 }
    ensures { CutOf bits result.below result.whole result.rest }
{
    let below = 0x8000_0000_0000_0000 <= bits;
    let size = bits % 0x8000_0000_0000_0000;
    let field = size / 0x10_0000_0000_0000;
    if field < 1023 {
        return Cut {
            below,
            whole: 0,
            rest: size != 0,
        };
    }
    let digits = bits % 0x10_0000_0000_0000 + 0x10_0000_0000_0000;
    let one = 1u64 << (1075 - field);
    Cut {
        below,
        whole: digits / one,
        rest: digits % one != 0,
    }
}

// The number with this sign and size. A flag, since it is the sign that the value has.
fn signed(below: bool, size: u64) -> i32
    requires { size ≤ farthest + 1 }
    ensures { result ≡ cond below (neg_ℤ (pos size)) (pos size) }
{
    let z = size as i32;
    if below { 0 - z } else { z }
}
