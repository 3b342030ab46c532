// The likelihoods of a pile by a table. What an observation adds to the likelihood of a genotype depends on its quality,
// whether it is alternate, the genotype, the ploidy and the alternate's weight alone: worked out once for the settings, a
// pile is a chain of additions. A table carries the ploidy and the weight that it was filled for, and is read only where
// they are the call's. So the answers are genotype_likelihoods' own, bit for bit, for every table that
// `fill_contribution_table` filled, for whatever settings. No public function has a `requires`.
#![tactic(auto)]

mod fill;
mod likelihoods;
mod rows;

pub use fill::{fill_contribution_table, table_length};
pub use likelihoods::calc_ref_vs_any_log10_genotype_likelihoods_by_table;

// The settings that a table carries in front of its rows.
pub const HEADING: usize = 2;

// A row for each quality below the missing one, plain and alternate.
pub const ROWS: usize = 510;

// The sums of four genotypes over some words, and how many of the words were not skipped. Public, since the definitions speak of
// it. Four fields and no array: the definitions name each sum, where an array would be a list that is read at a place, with a default.
#[derive(Clone, Copy, Default)]
pub struct Sums {
    pub count: u64,
    pub a: f64,
    pub b: f64,
    pub c: f64,
    pub d: f64,
}
