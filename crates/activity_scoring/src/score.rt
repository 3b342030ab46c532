// The score of a pile. Contig and position are arguments, as the public functions take them (docs/ARCHITECTURE.md names
// those), and fields of the state that they make.
ghost use Rattle.std.specs.Prelude.{◌≡◌, ◌+◌, ◌<◌, ◌≤◌, true, length};
ghost use Rattle.genome.specs.Refusals.{outcome_of};
ghost use Rattle.activity_scoring.specs.Score.{in_range, all_observations, evidence_of, score_of};
ghost use Rattle.activity_scoring.specs.Tables.{from_rounded_by, written_by, rounded_by, activity_by, state_by, score_by};

use crate::mean::hq_soft_clip_running_mean_rcm_path;
use crate::{Activity, ScoringTables};
use activity_profile::{ActivityEvidence, ActivityProfileState};
use genome::{GenomePosition, Refusal};
use genotype_likelihoods::HaplotypeCallerActivityScoringParams;
use pileup_words::PileupObservation;

// The longest pile: document 01's refusal 4.
pub const MAX_DEPTH: usize = 16384;

// A mean of clip counts strictly above it makes clip evidence.
pub const AVERAGE_HQ_SOFTCLIPS_HQ_BASES_THRESHOLD: f64 = 6.0;

// Scores a pile. Refuses a setting or a position outside its range, then a pile that is too deep, then a word that is no observation.
pub fn haplotype_caller_activity_profile_state_single_sample(
    contig: u32,
    pos: GenomePosition,
    pile: &[u32],
    params: HaplotypeCallerActivityScoringParams,
) -> Result<ActivityProfileState, Refusal>
    ensures { outcome_of result ≡ score_of contig pos pile.now params }
{
    let none = ScoringTables {
        contributions: &[],
        priors: &[],
    };
    haplotype_caller_activity_profile_state_by_tables(contig, pos, pile, params, none)
}

// The same score from tables that `fill_tables` filled once. Each carries the settings that it was filled for; one that
// carries others than these, or is of another length, is not looked at.
#[tactic(auto, using(std::proofs::lemmas::Bool::Decides::nat_tests), unfolding(crate::specs::Score::score_with))]
pub fn haplotype_caller_activity_profile_state_by_tables(
    contig: u32,
    pos: GenomePosition,
    pile: &[u32],
    params: HaplotypeCallerActivityScoringParams,
    tables: ScoringTables,
) -> Result<ActivityProfileState, Refusal>
    ensures { outcome_of result ≡ score_by tables.entry.contributions.now tables.entry.priors.now contig pos pile.now params }
{
    if !is_in_range(pos, params) {
        return Err(Refusal::Setting);
    }
    if pile.len() > MAX_DEPTH {
        return Err(Refusal::Depth);
    }
    if !are_observations(pile) {
        return Err(Refusal::Word);
    }
    Ok(state_of(contig, pos, pile, params, tables))
}

// Whether the settings and the position are in their ranges: document 01's refusal 1.
pub fn is_in_range(pos: GenomePosition, params: HaplotypeCallerActivityScoringParams) -> bool
    ensures { result ≡ in_range pos params }
{
    params.in_range() & numbers::within_u32(1, pos.0, genome::MAX_POSITION)
}

// Whether every word is an observation: document 01's refusal 3. A fold, which takes no branch for a word: by `all`, and
// has_clips by `any`, a score is slower (docs/SPEED.md, 'Forms that are slower').
pub fn are_observations(pile: &[u32]) -> bool
    ensures { result ≡ all_observations pile.now }
{
    pile.iter()
        .fold(true, |all, w| all & PileupObservation::is_word(*w))
}

// The state of a pile whose score is not refused. An empty pile has no activity.
#[tactic(auto, using(std::proofs::lemmas::Bool::Decides::nat_tests), unfolding(crate::specs::Score::state_with))]
fn state_of(
    contig: u32,
    pos: GenomePosition,
    pile: &[u32],
    params: HaplotypeCallerActivityScoringParams,
    tables: ScoringTables,
) -> ActivityProfileState
    ensures { result ≡ state_by tables.entry.contributions.now tables.entry.priors.now contig pos pile.now params }
{
    if pile.is_empty() {
        return ActivityProfileState {
            contig,
            pos,
            active_prob: 0.0,
            original_active_prob: 0.0,
            evidence: ActivityEvidence::Plain,
        };
    }
    let evidence = evidence_of(hq_soft_clip_running_mean_rcm_path(pile, params));
    let a = activity_of(pile, params, tables);
    ActivityProfileState {
        contig,
        pos,
        active_prob: a.probability,
        original_active_prob: a.original,
        evidence,
    }
}

// The evidence that a mean of clip counts makes.
#[tactic(auto, unfolding(crate::specs::Score::evidence_of))]
pub fn evidence_of(mean: f64) -> ActivityEvidence
    ensures { result ≡ evidence_of mean }
{
    if mean > AVERAGE_HQ_SOFTCLIPS_HQ_BASES_THRESHOLD {
        let clip_bases = numbers::as_u32(mean);
        return ActivityEvidence::HighQualitySoftClips { clip_bases };
    }
    ActivityEvidence::Plain
}

// The activity of a pile, by the formulas. Its likelihoods stand in an array with room for them: an array is cleared
// first, so that the usual ploidies have small ones, and 100 is the largest that is not
// refused: MAX_PLOIDY, written out as its array's 101 is, which cannot be worked out from it.
pub fn activity_of(
    pile: &[u32],
    params: HaplotypeCallerActivityScoringParams,
    tables: ScoringTables,
) -> Activity
    ensures { result ≡ activity_by tables.entry.contributions.now tables.entry.priors.now pile.now params }
{
    let p = params.sample_ploidy;
    if p.0 <= 3 {
        return activity_in_array::<4>(pile, params, tables);
    }
    if p.0 <= 100 {
        return activity_in_array::<101>(pile, params, tables);
    }
    activity_in_array::<256>(pile, params, tables)
}

// The activity, in an array of N likelihoods, of which the first ploidy + 1 are lent.
fn activity_in_array<const N: usize>(
    pile: &[u32],
    params: HaplotypeCallerActivityScoringParams,
    tables: ScoringTables,
) -> Activity
    requires { (params.sample_ploidy.0 < N) × (N ≤ 256) }
    ensures { result ≡ activity_by tables.entry.contributions.now tables.entry.priors.now pile.now params }
{
    let mut gl = [0.0; N];
    let n = usize::from(params.sample_ploidy.0) + 1;
    activity_in(&mut gl[..n], pile, params, tables)
}

#[tactic(auto, unfolding(crate::specs::Tables::activity_by))]
fn activity_in(
    gl: &mut [f64],
    pile: &[u32],
    params: HaplotypeCallerActivityScoringParams,
    tables: ScoringTables,
) -> Activity
    requires { length gl.old ≡ params.sample_ploidy.0 + 1 }
    ensures value { result ≡ activity_by tables.entry.contributions.now tables.entry.priors.now pile.now params }
    ensures gl_after { gl.new
        ≡ written_by tables.entry.priors.now params (rounded_by tables.entry.contributions.now pile.now params) }
{
    contribution_table::calc_ref_vs_any_log10_genotype_likelihoods_by_table(
        gl,
        pile,
        params,
        tables.contributions,
    );
    genotype_posterior::genotype_log10_likelihoods_after_java_genotype_pl_roundtrip(gl);
    from_rounded(gl, params, tables.priors)
}

fn from_rounded(
    gl: &mut [f64],
    params: HaplotypeCallerActivityScoringParams,
    priors: &[f64],
) -> Activity
    requires { 1 ≤ length gl.old }
    ensures value { result ≡ from_rounded_by priors.now params gl.old }
    ensures gl_after { gl.new ≡ written_by priors.now params gl.old }
{
    let m = log10_sums::max_element_index(&gl[..]);
    let original = gl[m] - gl[0];
    let probability =
        genotype_posterior::calculate_single_sample_biallelic_non_ref_posterior_by_priors(
            gl,
            params.snp_heterozygosity,
            params.heterozygosity_standard_deviation,
            priors,
        );
    Activity {
        probability,
        original,
    }
}
