// Whole square roots.
ghost use Rattle.std.specs.Prelude.{◌≡◌};
ghost use Rattle.asking.specs.Roots.{root};

// The whole square root of a number.
pub fn whole_root(n: u64) -> u64
    ensures { result ≡ root n }
{
    n.isqrt()
}
