// Rust's `as` from a double to an unsigned number.
ghost use Rattle.std.specs.Prelude.{◌≡◌};
ghost use Rattle.std.specs.Float.Ieee.{to_unsigned};

// Toward zero; 0 for a NaN, and the nearest end where x is out of range.
pub fn as_u64(x: f64) -> u64
    ensures { result ≡ to_unsigned 64 x }
{
    std::num::saturating_f64_to_u64(x)
}

pub fn as_u32(x: f64) -> u32
    ensures { result ≡ to_unsigned 32 x }
{
    std::num::saturating_f64_to_u32(x)
}
