// Scoring a locus: from a pile of observation words to the state that an add takes. Document 01, 'Scoring', after the
// Rust's activity_scoring.rs and minimal_genotyping.rs. No public function has a `requires`.
#![tactic(auto)]

mod mean;
mod score;
mod tables;

pub use mean::hq_soft_clip_running_mean_rcm_path;
pub use score::{
    MAX_DEPTH, activity_of, are_observations, evidence_of,
    haplotype_caller_activity_profile_state_by_tables,
    haplotype_caller_activity_profile_state_single_sample, is_in_range,
};
pub use tables::fill_tables;

// A mean of clip counts on its way: how many, and their mean. Public, since the definitions speak of it.
#[derive(Clone, Copy)]
pub struct RunningMean {
    pub count: u64,
    pub mean: f64,
}

// A locus's probability of being active, and how far its likeliest genotype lies above the reference genotype.
#[derive(Clone, Copy)]
pub struct Activity {
    pub probability: f64,
    pub original: f64,
}

// The tables that scoring reads, of any length and content. The settings of a call stay beside them: a table carries
// settings of its own, and may be filled for others. A struct of both would be made in each public function, which take them so
// (`activity_of`, the two `.._by_tables`), and taken apart in each clause.
#[derive(Clone, Copy)]
pub struct ScoringTables<'a> {
    pub contributions: &'a [f64],
    pub priors: &'a [f64],
}
