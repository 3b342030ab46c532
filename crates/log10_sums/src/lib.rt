// Sums of numbers that are given by their log10 (the Rust's activity_scoring.rs, after GATK's MathUtils). For every
// double: no public function has a `requires`.
#![tactic(auto)]

mod pair;
mod sums;

pub use pair::approximate_log10_sum_log10_pair;
pub use sums::{log10_sum_log10, max_element_index, neg_infinity};
