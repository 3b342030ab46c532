// Ranges: both ends are inside.
ghost use Rattle.std.specs.Prelude.{◌≡◌};
ghost use Rattle.numbers.specs.Ranges.{between, within};

// Whether n is in low to high.
pub fn within_u32(low: u32, n: u32, high: u32) -> bool
    ensures { result ≡ between low n high }
{
    (low..=high).contains(&n)
}

// Whether x is in low to high. A NaN is in no range. Two comparisons: the edit nan_inside stands on them, and what std says of
// `contains` on doubles goes by `partial_cmp`, so that one call takes a written answer of twelve lines.
pub fn within_f64(low: f64, x: f64, high: f64) -> bool
    ensures { result ≡ within low x high }
{
    (low <= x) & (x <= high)
}
