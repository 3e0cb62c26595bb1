// Which records are kept, and how many.
ghost use Rattle.std.specs.Prelude.{◌≡◌, length};
ghost use Rattle.survey.specs.Strips.{meets_strip};
ghost use Rattle.survey.specs.Records.{kept_by};
ghost use Rattle.survey.specs.CoverCall.{kept};

use crate::checks::record_at;
use survey::{Corners, Strip};

// How many records are kept.
pub fn count_kept(across: Strip, upward: Strip, corners: &[f64]) -> usize
    ensures { result ≡ length (kept across upward corners.now) }
{
    let n = corners.len() / 4;
    let mut k = 0;
    for i in 0..n {
        k += usize::from(is_kept(across, upward, record_at(corners, i)));
    }
    k
}

// Whether the record's extent meets both strips.
pub fn is_kept(across: Strip, upward: Strip, c: Corners) -> bool
    ensures { result ≡ kept_by across upward c }
{
    meets_strip(across, c.left, c.right) && meets_strip(upward, c.bottom, c.top)
}

// Whether the closed extent from low to high meets the strip.
fn meets_strip(s: Strip, low: f64, high: f64) -> bool
    ensures { result ≡ meets_strip s low high }
{
    match s {
        Strip::Free => true,
        Strip::From(a) => a <= high,
        Strip::To(b) => low <= b,
        Strip::Between(a, b) => a <= high && low <= b,
    }
}
