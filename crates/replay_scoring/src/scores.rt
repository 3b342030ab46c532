// Scores of piles, and of sets of them.
ghost use Rattle.std.specs.Prelude.{◌≤◌};

use crate::clips::{at_each, byte_at};
use activity_profile::{ActivityEvidence, ActivityProfileState};
use answer_list::{Compared, double_at, length_at, number_at, word_at};
use genome::{GenomePosition, Ploidy, Refusal};
use genotype_likelihoods::HaplotypeCallerActivityScoringParams;

// contig, position, min base quality, ploidy, heterozygosity, deviation, deletion quality, alt multiplier, flow, depth,
// k, words[k]; the refusal's number or 0, and where 0 probability, original probability and evidence. Word i of the pile
// is words[i % k].
pub(crate) fn score(words: &[u64]) -> bool {
    let n = depth_at(words, 9);
    let k = length_at(words, 10);
    let run = run_from(words, 11, k, n);
    let scored = activity_scoring::haplotype_caller_activity_profile_state_single_sample(
        number_at(words, 0),
        GenomePosition(number_at(words, 1)),
        &run[..n],
        params_at(words),
    );
    is_as_scored(Compared::starting(words, 11 + k), scored)
}

// As a score: contig, position, the settings, how many words the run has, k, words[k]; then m, lengths[m]; and its results.
pub(crate) fn score_set(words: &[u64]) -> bool {
    let n = depth_at(words, 9);
    let k = length_at(words, 10);
    let m = length_at(words, 11 + k);
    let run = run_from(words, 11, k, n);
    let lengths = at_each(words, 12 + k, |w, i| number_at(w, i));
    let scored = multi_sample_scoring::haplotype_caller_activity_profile_state_multi_sample(
        number_at(words, 0),
        GenomePosition(number_at(words, 1)),
        &run[..n],
        &lengths[..m],
        params_at(words),
    );
    is_as_scored(Compared::starting(words, 12 + k + m), scored)
}

// Whether the results are those of a score, whose state has the contig and the position that the call was given.
fn is_as_scored(c: Compared, scored: Result<ActivityProfileState, Refusal>) -> bool {
    match scored {
        Ok(s) => {
            let words = c.words;
            let given = (s.contig == number_at(words, 0)) & (s.pos.0 == number_at(words, 1));
            c.fact(given)
                .word(0)
                .double(s.active_prob)
                .double(s.original_active_prob)
                .word(evidence(s.evidence))
                .whole()
        }
        Err(why) => c.word(u64::from(why.number())).whole(),
    }
}

fn evidence(e: ActivityEvidence) -> u64 {
    match e {
        ActivityEvidence::Plain => 0,
        ActivityEvidence::HighQualitySoftClips { clip_bases } => u64::from(clip_bases) + 1,
    }
}

// The settings of scoring, from word 2 on.
fn params_at(words: &[u64]) -> HaplotypeCallerActivityScoringParams {
    HaplotypeCallerActivityScoringParams {
        min_base_quality_score: byte_at(words, 2),
        sample_ploidy: Ploidy(byte_at(words, 3)),
        snp_heterozygosity: double_at(words, 4),
        heterozygosity_standard_deviation: double_at(words, 5),
        ref_model_deletion_qual: byte_at(words, 6),
        active_region_alt_multiplier: double_at(words, 7),
        flow_based_reference_model: word_at(words, 8) == 1,
    }
}

// Room for a run of words: three times the deepest pile, and more.
const RUN: usize = 65536;

// The depth in word i, cut to the room that there is.
fn depth_at(words: &[u64], i: usize) -> usize
    ensures { result ≤ RUN }
{
    answer_list::length_within(words, i, RUN)
}

// The first n words of a run that goes round the k words from word `at` on. An array, for there is no heap; the caller cuts it.
fn run_from(words: &[u64], at: usize, k: usize, n: usize) -> [u32; RUN]
    requires { n ≤ RUN }
{
    let mut run = [0u32; RUN];
    for (w, j) in run[..n].iter_mut().zip((0..k.max(1)).cycle()) {
        *w = number_at(words, at.wrapping_add(j));
    }
    run
}
