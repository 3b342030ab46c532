// Which observations are skipped, and by what quality. Free functions, as the Rust's. Each caller asks both: two need the
// quality behind it (gain, and contribution_table's place_of), and one the clip count, so one function of both is no plainer.
ghost use Rattle.std.specs.Prelude.{◌≡◌};
ghost use Rattle.genotype_likelihoods.specs.Observation.{effective_qual, lacks_quality, skips};

use crate::HaplotypeCallerActivityScoringParams;
use pileup_words::PileupObservation;

// The quality that counts: a deletion takes the deletion quality.
#[tactic(auto, unfolding(crate::specs::Observation::effective_qual))]
pub fn effective_qual(obs: PileupObservation, params: HaplotypeCallerActivityScoringParams) -> u8
    ensures { result ≡ effective_qual params obs }
{
    if obs.is_deletion {
        params.ref_model_deletion_qual
    } else {
        obs.qual
    }
}

// Whether an observation of that effective quality is skipped: below the minimum or missing, and no deletion unless the
// flow model is on.
#[tactic(auto, unfolding(crate::specs::Observation::skips))]
pub fn skip_observation(
    obs: PileupObservation,
    qual: u8,
    params: HaplotypeCallerActivityScoringParams,
) -> bool
    ensures { result ≡ skips params obs qual }
{
    let may_be_skipped = params.flow_based_reference_model | !obs.is_deletion;
    lacks_quality(qual, params) & may_be_skipped
}

// Whether a quality is below the minimum, or missing: one more than the missing one is 0, as a byte.
fn lacks_quality(qual: u8, params: HaplotypeCallerActivityScoringParams) -> bool
    ensures { result ≡ lacks_quality params qual }
{
    (u32::from(qual) + 1) % 256 <= u32::from(params.min_base_quality_score)
}
