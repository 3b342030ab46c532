// Whether two doubles are one.
ghost use Rattle.std.specs.Prelude.{◌≡◌};
ghost use Rattle.numbers.specs.Same.{same_positive};

// Whether a and b are the same double, above 0. A NaN is the same as none.
pub fn same_positive(a: f64, b: f64) -> bool
    ensures { result ≡ same_positive a b }
{
    (0.0 < a) & (a == b)
}
