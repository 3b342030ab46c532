// Doubles by their bit patterns.
ghost use Rattle.std.specs.Prelude.{◌≡◌, from_bits};
ghost use Rattle.std.specs.Float.{binary64};

// The double of a bit pattern, NaN for every NaN's.
pub fn double_of(bits: u64) -> f64
    ensures { result ≡ from_bits binary64 bits }
{
    std::num::f64_from_bits_with_nan(bits)
}
