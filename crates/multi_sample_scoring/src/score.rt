// The score of a set. Contig and position are arguments, as the public functions take them (docs/ARCHITECTURE.md names
// those), and fields of the state that they make.
ghost use Rattle.std.specs.Prelude.{◌≡◌, ◌≤◌, length};
ghost use Rattle.std.specs.List.{sum_by};
ghost use Rattle.genome.specs.Refusals.{outcome_of};
ghost use Rattle.multi_sample_scoring.specs.Sets.{max_piles, total, set_score_of};
ghost use Rattle.multi_sample_scoring.specs.Tables.{set_state_by, set_score_by};
ghost use Rattle.multi_sample_scoring.specs.Passed.{any_by, count_left, set_activity_by};

use crate::MAX_PILES;
use crate::lengths::is_any_too_deep;
use crate::posterior::with_pile;
use activity_profile::ActivityProfileState;
use activity_scoring::{Activity, ScoringTables};
use genome::{GenomePosition, Refusal};
use genotype_likelihoods::HaplotypeCallerActivityScoringParams;

// Scores a set of piles. Refuses more than 64 piles, then a setting or a position outside its range, then a pile that is
// too deep, then lengths that do not add up to the run, then a word that is no observation.
pub fn haplotype_caller_activity_profile_state_multi_sample(
    contig: u32,
    pos: GenomePosition,
    words: &[u32],
    lengths: &[u32],
    params: HaplotypeCallerActivityScoringParams,
) -> Result<ActivityProfileState, Refusal>
    ensures { outcome_of result ≡ set_score_of contig pos words.now lengths.now params }
{
    let none = ScoringTables {
        contributions: &[],
        priors: &[],
    };
    haplotype_caller_activity_profile_state_multi_sample_by_tables(
        contig, pos, words, lengths, params, none,
    )
}

// The same score from tables that `activity_scoring::fill_tables` filled, as for one pile.
#[tactic(auto, using(crate::proofs::Walk::summed, std::proofs::lemmas::Bool::Decides::nat_tests), unfolding(crate::specs::Sets::set_score_with))]
pub fn haplotype_caller_activity_profile_state_multi_sample_by_tables(
    contig: u32,
    pos: GenomePosition,
    words: &[u32],
    lengths: &[u32],
    params: HaplotypeCallerActivityScoringParams,
    tables: ScoringTables,
) -> Result<ActivityProfileState, Refusal>
    ensures { outcome_of result
        ≡ set_score_by tables.entry.contributions.now tables.entry.priors.now contig pos words.now lengths.now params }
{
    if lengths.len() > MAX_PILES {
        return Err(Refusal::Piles);
    }
    if !activity_scoring::is_in_range(pos, params) {
        return Err(Refusal::Setting);
    }
    if is_any_too_deep(lengths) {
        return Err(Refusal::Depth);
    }
    if total_of(lengths) != words.len() {
        return Err(Refusal::Word);
    }
    if !activity_scoring::are_observations(words) {
        return Err(Refusal::Word);
    }
    Ok(set_state(contig, pos, Set { words, lengths }, params, tables))
}

// The piles of a set that is not refused: each stands behind the one before, and they are all of the run.
#[derive(Clone, Copy)]
struct Set<'a> {
    words: &'a [u32],
    lengths: &'a [u32],
    ghost few: { length lengths.now ≤ max_piles },
    ghost whole: { total lengths.now ≡ length words.now },
}

// The state of a set. The clip mean runs on from pile to pile, so it is that of the run.
fn set_state(
    contig: u32,
    pos: GenomePosition,
    set: Set,
    params: HaplotypeCallerActivityScoringParams,
    tables: ScoringTables,
) -> ActivityProfileState
    ensures { result
        ≡ set_state_by tables.entry.contributions.now tables.entry.priors.now contig pos
        set.entry.words.now set.entry.lengths.now params }
{
    let mean = activity_scoring::hq_soft_clip_running_mean_rcm_path(set.words, params);
    let evidence = activity_scoring::evidence_of(mean);
    let a = set_activity(set, params, tables);
    ActivityProfileState {
        contig,
        pos,
        active_prob: a.probability,
        original_active_prob: a.original,
        evidence,
    }
}

// The activity of a set. With one pile left, the run is that pile.
#[tactic(auto, using(crate::proofs::ByCount::by_count))]
fn set_activity(
    set: Set,
    params: HaplotypeCallerActivityScoringParams,
    tables: ScoringTables,
) -> Activity
    ensures { result
        ≡ set_activity_by tables.entry.contributions.now tables.entry.priors.now params
        set.entry.words.now set.entry.lengths.now }
{
    let left = count_left(set);
    if left == 0 {
        return Activity {
            probability: 0.0,
            original: 0.0,
        };
    }
    if left == 1 {
        return activity_scoring::activity_of(set.words, params, tables);
    }
    let probability = calculate_multi_sample_any_non_ref_posterior(set, params, tables);
    Activity {
        probability,
        original: 0.0,
    }
}

// 1 less the product, in the order of the piles, of the probabilities that each is not active. Empty ones are passed over.
fn calculate_multi_sample_any_non_ref_posterior(
    set: Set,
    params: HaplotypeCallerActivityScoringParams,
    tables: ScoringTables,
) -> f64
    ensures { result
        ≡ any_by tables.entry.contributions.now tables.entry.priors.now params
        set.entry.words.now set.entry.lengths.now }
{
    let mut inactive_prob = 1.0;
    let mut rest = set.words;
    for n in set.lengths {
        let (pile, behind) = rest.split_at(*n as usize);
        inactive_prob = with_pile(inactive_prob, pile, params, tables);
        rest = behind;
    }
    1.0 - inactive_prob
}

// What the lengths add up to: the definition total, by a lemma. So few of them do not pass 2 to the 38.
fn total_of(lengths: &[u32]) -> usize
    requires { length lengths.now ≤ max_piles }
    ensures { result ≡ sum_by (λ n. n) lengths.now }
{
    lengths.iter().map(|n| *n as usize).sum()
}

// How many piles are not empty, so that they are left. A sum, which takes no branch for a length: by `filter` and `count` a set of
// many piles is slower (docs/SPEED.md, 'Forms that are slower').
#[tactic(auto, using(crate::proofs::Walk::counted_left))]
fn count_left(set: Set) -> usize
    ensures { result ≡ count_left set.entry.lengths.now }
{
    set.lengths.iter().map(|n| usize::from(*n != 0)).sum()
}
