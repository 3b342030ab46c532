// Small functions on numbers: the lesser and the greater of two, a difference that stops at 0, ranges, sameness of doubles,
// doubles by their bit patterns, and Rust's casts from a double. For all numbers: no public function has a `requires`.
//
// Most are std's by another name. docs/ARCHITECTURE.md names each with what it promises (all but double_of, which
// error_probabilities calls), and the must-fail edits of this crate hold those promises: so the crates above call these
// where their numbers have these types, and std's own where they have others.
#![tactic(auto)]

mod bits;
mod casts;
mod ranges;
mod same;
mod whole;

pub use bits::double_of;
pub use casts::{as_u32, as_u64};
pub use ranges::{within_f64, within_u32};
pub use same::same_positive;
pub use whole::{greater, lesser, monus};
