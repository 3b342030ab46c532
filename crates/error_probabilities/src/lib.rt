// The probability that a base of a quality is wrong, 10 to the power -quality/10 by document 01's steps: document 02's
// constant table (U7), and the steps themselves. No public function has a `requires`.
#![tactic(auto)]

mod table;

ghost use Rattle.std.specs.Prelude.{◌≡◌};
ghost use Rattle.error_probabilities.specs.ErrorProb.{error_prob};
ghost use Rattle.error_probabilities.specs.Table.{patterns as all_patterns, probability_in};

use genome::MISSING_QUALITY;
use table::ERROR_PROBABILITIES;

// The qualities that have an entry in the table: all but the missing one.
pub const QUALITIES: usize = 255;

// The table.
#[tactic(auto, unfolding(crate::specs::Table::patterns, crate::specs::Table::lower, crate::specs::Table::upper))]
pub fn error_patterns() -> [u64; QUALITIES]
    ensures { result ≡ all_patterns }
{
    ERROR_PROBABILITIES
}

// The probability by the table, which is lent, so that a caller who asks often lays it out once. The missing quality has
// no entry, and is worked out. Scoring does not read the table yet: it goes by the steps.
#[tactic(auto, using(std::proofs::lemmas::Bool::Decides::nat_tests), unfolding(crate::specs::Table::probability_in))]
pub fn error_probability(patterns: &[u64; QUALITIES], qual: u8) -> f64
    ensures { result ≡ probability_in patterns.now qual }
{
    if qual < MISSING_QUALITY {
        return numbers::double_of(patterns[usize::from(qual)]);
    }
    error_probability_by_steps(qual)
}

// By document 01's steps, for the table's generator and for what has no entry.
#[tactic(auto, unfolding(crate::specs::ErrorProb::error_prob))]
pub fn error_probability_by_steps(qual: u8) -> f64
    ensures { result ≡ error_prob qual }
{
    elementary::ten_to(-f64::from(qual) / 10.0)
}
