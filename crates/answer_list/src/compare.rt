// Comparing results with the words of an answer, from a place on.
ghost use Rattle.std.specs.Prelude.{◌≡◌, true, ◌&&◌, length, ◌==◌};
ghost use Rattle.std.specs.List.{fold};
ghost use Rattle.answer_list.specs.Compare.{with_word, with_double, with_fact};

use crate::Compared;
use std::num::f64_to_bits_with_nan;

impl<'a> Compared<'a> {
    // Nothing compared yet; the results start at `at`.
    pub fn starting(words: &'a [u64], at: usize) -> Compared<'a>
        ensures { result ≡ record { words = words.entry; at = at; same = true } }
    {
        Compared {
            words,
            at,
            same: true,
        }
    }

    // With the next word compared.
    #[tactic(auto, unfolding(crate::specs::Compare::with_word))]
    pub fn word(self, w: u64) -> Compared<'a>
        ensures { result ≡ with_word self.entry w }
    {
        match self.words.get(self.at) {
            Some(word) => Compared {
                at: self.at + 1,
                same: self.same & (*word == w),
                ..self
            },
            None => Compared {
                same: false,
                ..self
            },
        }
    }

    // With the next double compared, by its bit pattern.
    #[tactic(auto, unfolding(crate::specs::Compare::with_double))]
    pub fn double(self, x: f64) -> Compared<'a>
        ensures { result ≡ with_double self.entry x }
    {
        self.word(f64_to_bits_with_nan(x))
    }

    // With the elements of a slice compared, one after the other.
    pub fn doubles(self, xs: &[f64]) -> Compared<'a>
        ensures { result ≡ fold with_double self.entry xs.now }
    {
        xs.iter().fold(self, |c, x| c.double(*x))
    }

    // With a fact compared that the answer has no word for: it has to hold.
    #[tactic(auto, unfolding(crate::specs::Compare::with_fact))]
    pub fn fact(self, holds: bool) -> Compared<'a>
        ensures { result ≡ with_fact self.entry holds }
    {
        Compared {
            same: self.same & holds,
            ..self
        }
    }

    // Whether all were the same and no word is left.
    pub fn whole(self) -> bool
        ensures { result ≡ (self.entry.same && self.entry.at == length self.entry.words.now) }
    {
        self.same & (self.at == self.words.len())
    }
}
