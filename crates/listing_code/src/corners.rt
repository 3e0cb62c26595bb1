// Corner records as bytes: 64-bit floats, the little end first.
ghost use Rattle.std.specs.Prelude.{◌≡◌, ◌+◌, ◌*◌, ◌≤◌, ◌<◌, length, take, drop};
ghost use Rattle.std.specs.Float.{nan, binary64};
ghost use Rattle.std.specs.Float.Ieee.{of_bits};
ghost use Rattle.lists.specs.inner.Stores.{Put};
ghost use Rattle.listing.specs.Cover.{word_of, float_at, floats_in};

// Eight bytes at a place as a number.
fn word_at(t: &[u8], at: usize) -> u64
    requires { at + 8 ≤ length t.now }
    ensures { result ≡ word_of (take 8 (drop at t.now)) }
{
    u64::from_le_bytes([
        t[at],
        t[at + 1],
        t[at + 2],
        t[at + 3],
        t[at + 4],
        t[at + 5],
        t[at + 6],
        t[at + 7],
    ])
}

// The float of a pattern.
fn float_of(bits: u64) -> f64
    ensures { result ≡ of_bits binary64 bits }
{
    if 0x7ff0_0000_0000_0000 < bits % 0x8000_0000_0000_0000 {
        return f64::NAN;
    }
    f64::from_bits(bits)
}

// The float at i; no number where fewer than eight bytes are left.
fn float_at(t: &[u8], i: usize) -> f64
    requires { i ≤ 8192 }
    ensures { result ≡ float_at t.now i }
{
    let at = 8 * i;
    if t.len() < at + 8 {
        return f64::NAN;
    }
    float_of(word_at(t, at))
}

// All floats of the bytes, from the first cell on; how many they are.
pub fn put_floats(t: &[u8], corners: &mut [f64]) -> usize
    requires { (length t.now ≤ 65536) × (length corners.old ≡ 8192) }
    ensures { Put corners.old 0 (floats_in t.now) corners.new result }
{
    let n = t.len().div_ceil(8);
    for i in 0..n {
        corners[i] = float_at(t, i);
    }
    n
}
