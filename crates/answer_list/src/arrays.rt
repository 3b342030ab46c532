// Slices of an answer, as arrays with room for 1,024 doubles: memory is fixed, and an answer with a longer slice differs.
ghost use Rattle.std.specs.Prelude.{◌≡◌, min, slice_index};
ghost use Rattle.lists.specs.Each.{tabulate};
ghost use Rattle.answer_list.specs.Arrays.{double_at, pattern_at};

use crate::words::{double_at, word_at};
use std::num::f64_from_bits_with_nan;

// The length in word i, cut to the room that there is.
pub fn length_at(words: &[u64], i: usize) -> usize
    ensures { result ≡ min (slice_index words.now i) 1024 }
{
    length_within(words, i, 1024)
}

// The length in word i, at most `most`.
pub fn length_within(words: &[u64], i: usize, most: usize) -> usize
    ensures { result ≡ min (slice_index words.now i) most }
{
    word_at(words, i).min(most as u64) as usize
}

// The doubles from word `at` on.
pub fn doubles_from(words: &[u64], at: usize) -> [f64; 1024]
    ensures { result ≡ tabulate (double_at words.now at) 1024 }
{
    std::array::from_fn(|i| double_at(words, at.wrapping_add(i)))
}

// Entry i is the double whose bits are `first` + i: what a lent buffer holds before a call.
pub fn filled(first: u64) -> [f64; 1024]
    ensures { result ≡ tabulate (pattern_at first) 1024 }
{
    std::array::from_fn(|i| f64_from_bits_with_nan(first.wrapping_add(i as u64)))
}
