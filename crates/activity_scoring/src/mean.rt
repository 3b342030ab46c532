// The running mean of clip counts.
ghost use Rattle.std.specs.Prelude.{◌≡◌, ◌-◌, ◌^◌, ◌<◌, false};
ghost use Rattle.std.specs.List.{fold};
ghost use Rattle.activity_scoring.specs.Mean.{next_to_clip, or_next_to_clip, with_count, with_word, mean_of};

use crate::RunningMean;
use genotype_likelihoods::HaplotypeCallerActivityScoringParams;
use pileup_words::{NEXT_TO_CLIP, PileupObservation};

// Over the alternate observations next to a soft clip that are not skipped, in their order; 0.0 where there is none.
#[tactic(auto, unfolding(crate::specs::Mean::mean_of))]
pub fn hq_soft_clip_running_mean_rcm_path(
    pile: &[u32],
    params: HaplotypeCallerActivityScoringParams,
) -> f64
    ensures { result ≡ mean_of params pile.now }
{
    if !has_clips(pile) {
        return 0.0;
    }
    let mut r = RunningMean {
        count: 0,
        mean: 0.0,
    };
    for w in pile {
        r = with_word(r, *w, params);
    }
    r.mean
}

// Whether any observation is alternate and next to a soft clip, skipped or not. Few piles have one, and only those need a mean.
// A fold, which takes no branch for a word: by `any`, and are_observations by `all`, a score is slower (docs/SPEED.md, 'Forms
// that are slower').
fn has_clips(pile: &[u32]) -> bool
    ensures { result ≡ fold or_next_to_clip false pile.now }
{
    pile.iter()
        .fold(false, |found, w| found | is_next_to_clip(*w))
}

// Two bits that stand side by side, tested at once.
fn is_next_to_clip(w: u32) -> bool
    ensures { result ≡ next_to_clip w }
{
    w / NEXT_TO_CLIP % 4 == 3
}

// The mean with a word more. Its count is a count of a slice's words: the loop knows that it is not the largest.
#[tactic(auto, unfolding(crate::specs::Mean::with_word))]
fn with_word(r: RunningMean, w: u32, params: HaplotypeCallerActivityScoringParams) -> RunningMean
    requires { r.count < 2 ^ 64 - 1 }
    ensures { result ≡ with_word params r w }
{
    let obs = PileupObservation::from_word(w);
    let qual = genotype_likelihoods::effective_qual(obs, params);
    let skip = genotype_likelihoods::skip_observation(obs, qual, params);
    if !skip & (obs.is_alt & obs.is_next_to_soft_clip) {
        return with_count(r, obs.read_hq_soft_clip_base_count);
    }
    r
}

fn with_count(r: RunningMean, clip_bases: u32) -> RunningMean
    requires { r.count < 2 ^ 64 - 1 }
    ensures { result ≡ with_count r clip_bases }
{
    let count = r.count + 1;
    let step = (f64::from(clip_bases) - r.mean) / std::num::nearest_u64_to_f64(count);
    RunningMean {
        count,
        mean: r.mean + step,
    }
}
