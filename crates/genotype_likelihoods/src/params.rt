// The settings of scoring: the Rust's defaults, and document 01's ranges.
ghost use Rattle.std.specs.Prelude.{◌≡◌};
ghost use Rattle.genotype_likelihoods.specs.Settings.{defaults, settings_in_range};

use crate::HaplotypeCallerActivityScoringParams;
use genome::Ploidy;

impl HaplotypeCallerActivityScoringParams {
    pub const DEFAULT_MIN_BASE_QUALITY_SCORE: u8 = 10;

    pub const DEFAULT_SAMPLE_PLOIDY: u8 = 2;

    pub const DEFAULT_SNP_HETEROZYGOSITY: f64 = 0.001;

    pub const DEFAULT_HETEROZYGOSITY_STANDARD_DEVIATION: f64 = 0.01;

    pub const REF_MODEL_DELETION_QUAL: u8 = 30;

    pub const DEFAULT_ALT_MULTIPLIER: f64 = 1.0;

    // Document 01, 'Ranges'.
    pub const MIN_QUAL: u32 = 1;

    pub const MAX_QUAL: u32 = 254;

    pub const MAX_PLOIDY: u32 = 100;

    pub const MIN_HETEROZYGOSITY: f64 = 0.000001;

    pub const MAX_HETEROZYGOSITY: f64 = 0.5;

    pub const MIN_STANDARD_DEVIATION: f64 = 0.0001;

    pub const MAX_STANDARD_DEVIATION: f64 = 1.0;

    pub const MIN_ALT_MULTIPLIER: f64 = 0.0009765625;

    pub const MAX_ALT_MULTIPLIER: f64 = 1024.0;

    // Whether each setting is in its range.
    #[tactic(auto, unfolding(crate::specs::Settings::settings_in_range))]
    pub fn in_range(self) -> bool
        ensures { result ≡ settings_in_range self }
    {
        let ploidy = u32::from(self.sample_ploidy.0);
        let min_qual = u32::from(self.min_base_quality_score);
        let deletion_qual = u32::from(self.ref_model_deletion_qual);
        numbers::within_u32(1, ploidy, Self::MAX_PLOIDY)
            & numbers::within_u32(Self::MIN_QUAL, min_qual, Self::MAX_QUAL)
            & numbers::within_u32(Self::MIN_QUAL, deletion_qual, Self::MAX_QUAL)
            & numbers::within_f64(
                Self::MIN_HETEROZYGOSITY,
                self.snp_heterozygosity,
                Self::MAX_HETEROZYGOSITY,
            )
            & numbers::within_f64(
                Self::MIN_STANDARD_DEVIATION,
                self.heterozygosity_standard_deviation,
                Self::MAX_STANDARD_DEVIATION,
            )
            & numbers::within_f64(
                Self::MIN_ALT_MULTIPLIER,
                self.active_region_alt_multiplier,
                Self::MAX_ALT_MULTIPLIER,
            )
    }
}

// The Rust's defaults.
impl Default for HaplotypeCallerActivityScoringParams {
    ghost is_default = { λ s. s ≡ defaults };

    fn default() -> HaplotypeCallerActivityScoringParams {
        HaplotypeCallerActivityScoringParams {
            min_base_quality_score: Self::DEFAULT_MIN_BASE_QUALITY_SCORE,
            sample_ploidy: Ploidy(Self::DEFAULT_SAMPLE_PLOIDY),
            snp_heterozygosity: Self::DEFAULT_SNP_HETEROZYGOSITY,
            heterozygosity_standard_deviation: Self::DEFAULT_HETEROZYGOSITY_STANDARD_DEVIATION,
            ref_model_deletion_qual: Self::REF_MODEL_DELETION_QUAL,
            active_region_alt_multiplier: Self::DEFAULT_ALT_MULTIPLIER,
            flow_based_reference_model: false,
        }
    }
}
