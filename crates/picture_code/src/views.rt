// Numbers of the head and the tail: what is seen, and the scale bar.
ghost use Rattle.std.specs.Prelude.{◌≡◌, ◌≤◌};
ghost use Rattle.picture.specs.Frames.{longer, width_of, bar_of};
ghost use Rattle.picture.specs.Pictures.{seen, scale};
ghost use Rattle.picture.specs.inner.Parts.{Small};

use crate::numbers::whole;
use picture::Frame;

// The longer of two lengths.
fn longer_of(a: u64, b: u64) -> u64
    ensures { result ≡ longer a b }
{
    a.max(b)
}

// The width of a line of n tenths of a millimetre.
fn width_of(n: u64) -> u64
    ensures { (result ≡ width_of n) × (result ≤ 327670) }
{
    n.min(327670)
}

// The part of the ground that is seen, and how wide lines are.
pub fn seen_of(frame: Frame) -> [i64; 18]
    requires { Small frame }
    ensures { result ≡ seen frame }
{
    let n = frame.unit;
    let e = whole(5 * n);
    let w = whole(frame.width + 65 * n);
    let h = whole(longer_of(frame.height, 30 * n) + 10 * n);
    let line = width_of(3 * n);
    let hatch = width_of(2 * n);
    let thick = width_of(6 * n);
    [
        e,
        e,
        w,
        h,
        whole(line / 10),
        whole(line % 10),
        whole(hatch / 10),
        whole(hatch % 10),
        whole(8 * n / 10),
        whole(8 * n % 10),
        whole(6 * n / 10),
        whole(6 * n % 10),
        whole(thick / 10),
        whole(thick % 10),
        e,
        e,
        w,
        h,
    ]
}

// The length of the scale bar.
fn bar_of(unit: u64) -> u64
    ensures { (result ≡ bar_of unit) × (result ≤ 1000000) }
{
    if 25000 <= unit {
        return 1000000;
    }
    if 2500 <= unit {
        return 100000;
    }
    if 250 <= unit {
        return 10000;
    }
    if 25 <= unit {
        return 1000;
    }
    if 3 <= unit {
        return 100;
    }
    10
}

// The number of rows, and the scale bar.
pub fn scale_of(frame: Frame, rows: u32) -> [i64; 11]
    requires { Small frame }
    ensures { result ≡ scale frame rows }
{
    let u = frame.unit;
    let b = bar_of(u);
    let x = whole(frame.width + 5 * u);
    let v = whole(u);
    [
        x,
        v,
        whole(rows as u64),
        x,
        whole(24 * u),
        whole(b),
        v,
        whole(b / 1000),
        whole(b / 100 % 10),
        whole(b / 10 % 10),
        whole(b % 10),
    ]
}
