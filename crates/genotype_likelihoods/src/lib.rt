// The log10 likelihoods of a sample's genotypes over a pile of observation words: document 01, 'Scoring', after the
// Rust's activity_scoring.rs. No public function has a `requires`.
#![tactic(auto)]

mod contribution;
mod likelihoods;
mod observation;
mod params;

pub use contribution::genotype_contribution;
use genome::Ploidy;
pub use likelihoods::{calc_ref_vs_any_log10_genotype_likelihoods, subtract, weight_of};
pub use observation::{effective_qual, skip_observation};

// The settings of scoring; those that the picker has no use for are left out.
#[derive(Clone, Copy)]
pub struct HaplotypeCallerActivityScoringParams {
    pub min_base_quality_score: u8,
    pub sample_ploidy: Ploidy,
    pub snp_heterozygosity: f64,
    pub heterozygosity_standard_deviation: f64,
    pub ref_model_deletion_qual: u8,
    pub active_region_alt_multiplier: f64,
    // Whether a deletion of too low a quality is skipped too.
    pub flow_based_reference_model: bool,
}
