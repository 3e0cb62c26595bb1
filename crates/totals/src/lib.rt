// Sums of areas: one type, whole square metres and a rest, and one function that adds to it.
#![tactic(auto)]

ghost use Rattle.std.specs.Prelude.{◌≡◌, ◌+◌, ◌<◌};
ghost use Rattle.totals.specs.Totals.{total_of, value_of, Kept};

// A sum of areas: whole square metres, and a rest in square millimetres, which is below a square metre.
#[derive(Clone, Copy)]
pub struct Total {
    pub metres: u64,
    pub rest: u64,
}

// The square millimetres of a square metre.
const METRE: u64 = 1000000;

// The sum of no areas.
pub fn nothing() -> Total
    ensures { result ≡ total_of 0 }
{
    Total { metres: 0, rest: 0 }
}

// One area more, in square millimetres. Where it does not fill the rest to a square metre, as an area of 0 never does, nothing is divided.
pub fn add(t: Total, area: u64) -> Total
    requires { Kept t × (area < 9223372036854775808) }
    ensures { result ≡ total_of (value_of t + area) }
{
    let sum = t.rest + area;
    if sum < METRE {
        return Total {
            metres: t.metres,
            rest: sum,
        };
    }
    Total {
        metres: t.metres + sum / METRE,
        rest: sum % METRE,
    }
}
