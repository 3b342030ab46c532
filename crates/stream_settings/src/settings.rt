// The settings of a stream: their defaults, and the fields that change them.
ghost use Rattle.std.specs.Prelude.{◌≡◌, cond};
ghost use Rattle.numbers.specs.Ranges.{between};
ghost use Rattle.genome.specs.Refusals.{outcome_of, answered, refused, setting_refusal};
ghost use Rattle.stream_settings.specs.Settings.{defaults, NamesField, params_of, with_field};

use crate::{StreamField, StreamSettings};
use band_pass_kernel::BandPassActivityProfileParams;
use genome::Refusal;

impl StreamSettings {
    pub const DEFAULT_MAX_REGION_SIZE: u32 = 300;

    pub const DEFAULT_MIN_REGION_SIZE: u32 = 50;

    pub const DEFAULT_ASSEMBLY_REGION_EXTENSION: u32 = 100;

    pub const DEFAULT_MAX_PROB_PROPAGATION_DISTANCE: u32 = 50;

    pub const DEFAULT_MAX_FILTER_SIZE: u32 = 50;

    pub const DEFAULT_CONTIG_LEN: u32 = genome::MAX_POSITION;

    pub const SIGMA: f64 = 17.0;

    pub const ACTIVE_PROB_THRESHOLD: f64 = 0.002;

    // The settings that the profile is made with.
    pub fn params(self) -> BandPassActivityProfileParams
        ensures { result ≡ params_of self }
    {
        BandPassActivityProfileParams {
            max_prob_propagation_distance: self.max_prob_propagation_distance,
            active_prob_threshold: Self::ACTIVE_PROB_THRESHOLD,
            max_filter_size: self.max_filter_size,
            sigma: Self::SIGMA,
            adaptive_filter_size: true,
        }
    }

    // The settings with another value in a field. Refuses a value outside its range, and a field that there is not: the field
    // comes as the number that a word has, and every number has an answer.
    #[tactic(auto, using(std::proofs::lemmas::Bool::Decides::nat_tests), unfolding(crate::specs::Settings::with_field))]
    pub fn with_field(self, field: u32, value: u32) -> Result<StreamSettings, Refusal>
        ensures { outcome_of result ≡ with_field self field value }
    {
        match StreamField::try_from(field)? {
            StreamField::MaxRegionSize => Ok(StreamSettings {
                max_region_size: value,
                ..self
            }),
            StreamField::MinRegionSize => Ok(StreamSettings {
                min_region_size: value,
                ..self
            }),
            StreamField::AssemblyRegionExtension => Ok(StreamSettings {
                assembly_region_extension: value,
                ..self
            }),
            StreamField::MaxProbPropagationDistance => {
                let most = BandPassActivityProfileParams::MAX_PROPAGATION_DISTANCE;
                let max_prob_propagation_distance = ranged(0, value, most)?;
                Ok(StreamSettings {
                    max_prob_propagation_distance,
                    ..self
                })
            }
            StreamField::MaxFilterSize => {
                let most = BandPassActivityProfileParams::MAX_FILTER_SIZE;
                let max_filter_size = ranged(0, value, most)?;
                Ok(StreamSettings {
                    max_filter_size,
                    ..self
                })
            }
            StreamField::ContigLen => {
                let contig_len = ranged(1, value, genome::MAX_POSITION)?;
                Ok(StreamSettings { contig_len, ..self })
            }
        }
    }
}

// The settings of a stream that sets nothing.
impl Default for StreamSettings {
    ghost is_default = { λ s. s ≡ defaults };

    fn default() -> StreamSettings {
        StreamSettings {
            max_region_size: Self::DEFAULT_MAX_REGION_SIZE,
            min_region_size: Self::DEFAULT_MIN_REGION_SIZE,
            assembly_region_extension: Self::DEFAULT_ASSEMBLY_REGION_EXTENSION,
            max_prob_propagation_distance: Self::DEFAULT_MAX_PROB_PROPAGATION_DISTANCE,
            max_filter_size: Self::DEFAULT_MAX_FILTER_SIZE,
            contig_len: Self::DEFAULT_CONTIG_LEN,
        }
    }
}

// The field that a setting's word names, by its number. Refuses a number that names none.
impl TryFrom<u32> for StreamField {
    type Error = Refusal;

    ghost try_from_gives = { NamesField };

    fn try_from(number: u32) -> Result<StreamField, Refusal> {
        match number {
            1 => Ok(StreamField::MaxRegionSize),
            2 => Ok(StreamField::MinRegionSize),
            3 => Ok(StreamField::AssemblyRegionExtension),
            4 => Ok(StreamField::MaxProbPropagationDistance),
            5 => Ok(StreamField::MaxFilterSize),
            6 => Ok(StreamField::ContigLen),
            _ => Err(Refusal::Word),
        }
    }
}

// The value, where it is in low to high.
fn ranged(low: u32, value: u32, high: u32) -> Result<u32, Refusal>
    ensures { outcome_of result ≡ cond (between low value high) (answered value) (refused setting_refusal) }
{
    if numbers::within_u32(low, value, high) {
        return Ok(value);
    }
    Err(Refusal::Setting)
}
