// Whole numbers of 64 bits.
ghost use Rattle.std.specs.Prelude.{◌≡◌, ◌-◌, min, max};

// a - b, and 0 where b is larger.
pub fn monus(a: u64, b: u64) -> u64
    ensures { result ≡ a - b }
{
    a.saturating_sub(b)
}

pub fn lesser(a: u64, b: u64) -> u64
    ensures { result ≡ min a b }
{
    a.min(b)
}

pub fn greater(a: u64, b: u64) -> u64
    ensures { result ≡ max a b }
{
    a.max(b)
}
