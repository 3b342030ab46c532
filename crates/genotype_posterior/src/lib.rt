// From log10 genotype likelihoods to the probability that a sample is not all reference: PL rounding and the posterior
// (the Rust's activity_scoring.rs, after GATK's AlleleFrequencyCalculator). Over lent slices of any length and content:
// no public function has a `requires`.
#![tactic(auto)]

mod phred;
mod posterior;

pub use phred::genotype_log10_likelihoods_after_java_genotype_pl_roundtrip;
pub use posterior::{
    calculate_single_sample_biallelic_non_ref_posterior,
    calculate_single_sample_biallelic_non_ref_posterior_by_priors, fill_log10_priors,
    priors_length,
};

// The settings that a list of priors carries in front of them: the ploidy, the heterozygosity and its deviation.
pub const HEADING: usize = 3;
