// Words as numbers and as doubles.
ghost use Rattle.std.specs.Prelude.{◌≡◌, ◌%◌, ◌^◌, from_bits, slice_index};
ghost use Rattle.std.specs.Float.{binary64};

// Word i, or 0 past the end.
pub fn word_at(words: &[u64], i: usize) -> u64
    ensures { result ≡ slice_index words.now i }
{
    words.get(i).copied().unwrap_or(0)
}

// The low 32 bits of word i.
pub fn number_at(words: &[u64], i: usize) -> u32
    ensures { result ≡ slice_index words.now i % 2 ^ 32 }
{
    (word_at(words, i) % 0x1_0000_0000) as u32
}

// Word i as a double, NaN for every pattern of a NaN.
pub fn double_at(words: &[u64], i: usize) -> f64
    ensures { result ≡ from_bits binary64 (slice_index words.now i) }
{
    std::num::f64_from_bits_with_nan(word_at(words, i))
}
