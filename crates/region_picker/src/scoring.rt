// Scoring a pile or a set of piles by tables, and the count of soft-clipped bases.
ghost use Rattle.std.specs.Prelude.{◌≡◌, length};
ghost use Rattle.contribution_table.specs.Table.{table_length};
ghost use Rattle.genotype_posterior.specs.Priors.{priors_length};
ghost use Rattle.genome.specs.Refusals.{outcome_of};
ghost use Rattle.activity_scoring.specs.Tables.{fill_verdict, table_after, priors_after, score_by};
ghost use Rattle.multi_sample_scoring.specs.Tables.{set_score_by};
ghost use Rattle.hq_soft_clip.specs.SoftClips.{clip_count};
ghost use Rattle.region_picker.specs.Part.{scoring_from, evidence_fields, verdict_number, Answers, Scores};

use crate::answer::write_answer;
use activity_profile::{ActivityEvidence, ActivityProfileState};
use activity_scoring::ScoringTables;
use genome::{GenomePosition, Ploidy, Refusal};
use genotype_likelihoods::HaplotypeCallerActivityScoringParams;

// How many numbers the table of a ploidy has.
pub fn region_picker_table_length(ploidy: u8) -> usize
    ensures { result ≡ table_length ploidy }
{
    contribution_table::table_length(Ploidy(ploidy))
}

// How many numbers the list of priors of a ploidy has.
pub fn region_picker_priors_length(ploidy: u8) -> usize
    ensures { result ≡ priors_length ploidy }
{
    genotype_posterior::priors_length(Ploidy(ploidy))
}

// Fills the tables that scoring is handed: `table`, of `region_picker_table_length` numbers or more, and `priors`, of
// `region_picker_priors_length` or more. To be called once, and again when a setting changes. Answers 0; 1 for a setting
// outside its range; 2 for a slice that is too short. A refusal writes nothing.
pub fn region_picker_fill_tables(
    table: &mut [f64],
    priors: &mut [f64],
    min_base_quality_score: u8,
    sample_ploidy: u8,
    snp_heterozygosity: f64,
    heterozygosity_standard_deviation: f64,
    ref_model_deletion_qual: u8,
    active_region_alt_multiplier: f64,
    flow_based_reference_model: bool,
) -> u32
    ensures value { result ≡ verdict_number (fill_verdict (scoring_from min_base_quality_score sample_ploidy snp_heterozygosity
        heterozygosity_standard_deviation ref_model_deletion_qual active_region_alt_multiplier
        flow_based_reference_model) (length table.old) (length priors.old)) }
    ensures table_after { table.new ≡ table_after (scoring_from min_base_quality_score sample_ploidy snp_heterozygosity
        heterozygosity_standard_deviation ref_model_deletion_qual active_region_alt_multiplier
        flow_based_reference_model) table.old priors.old }
    ensures priors_after { priors.new ≡ priors_after (scoring_from min_base_quality_score sample_ploidy snp_heterozygosity
        heterozygosity_standard_deviation ref_model_deletion_qual active_region_alt_multiplier
        flow_based_reference_model) table.old priors.old }
{
    let params = scoring_params(
        min_base_quality_score,
        sample_ploidy,
        snp_heterozygosity,
        heterozygosity_standard_deviation,
        ref_model_deletion_qual,
        active_region_alt_multiplier,
        flow_based_reference_model,
    );
    let filling = activity_scoring::fill_tables(table, priors, params);
    // Written out, and not by `write_answer`: a filling writes its tables itself, and its clause is by `verdict_number`.
    match filling {
        Ok(()) => 0,
        Err(refusal) => refusal.number(),
    }
}

// Scores a pile of observation words. Answers 0 with the probability and the original probability in `activity`, and in
// `evidence` 1 and the clip count, or 0 and 0 for plain evidence; or the number of a refusal, which writes nothing. The
// score is the same by tables that were filled for other settings, or never, and without any (slices of length 0): those
// are not looked at, and it takes longer.
pub fn region_picker_score(
    pos: u32,
    pile: &[u32],
    table: &[f64],
    priors: &[f64],
    min_base_quality_score: u8,
    sample_ploidy: u8,
    snp_heterozygosity: f64,
    heterozygosity_standard_deviation: f64,
    ref_model_deletion_qual: u8,
    active_region_alt_multiplier: f64,
    flow_based_reference_model: bool,
    activity: &mut [f64; 2],
    evidence: &mut [u32; 2],
) -> u32
    ensures { Scores
        (score_by table.now priors.now 0 (record { 0 = pos }) pile.now
        (scoring_from min_base_quality_score sample_ploidy snp_heterozygosity
        heterozygosity_standard_deviation ref_model_deletion_qual active_region_alt_multiplier
        flow_based_reference_model))
        activity.old activity.new evidence.old evidence.new result }
{
    let params = scoring_params(
        min_base_quality_score,
        sample_ploidy,
        snp_heterozygosity,
        heterozygosity_standard_deviation,
        ref_model_deletion_qual,
        active_region_alt_multiplier,
        flow_based_reference_model,
    );
    let scored = activity_scoring::haplotype_caller_activity_profile_state_by_tables(
        0,
        GenomePosition(pos),
        pile,
        params,
        ScoringTables {
            contributions: table,
            priors,
        },
    );
    write_score(scored, activity, evidence)
}

// Scores a set of piles: `words` is one run, and `lengths` has how many words each pile has, in their order; the lengths
// add up to the run. Answers as `region_picker_score` does, and 12 for more than 64 piles.
pub fn region_picker_score_set(
    pos: u32,
    words: &[u32],
    lengths: &[u32],
    table: &[f64],
    priors: &[f64],
    min_base_quality_score: u8,
    sample_ploidy: u8,
    snp_heterozygosity: f64,
    heterozygosity_standard_deviation: f64,
    ref_model_deletion_qual: u8,
    active_region_alt_multiplier: f64,
    flow_based_reference_model: bool,
    activity: &mut [f64; 2],
    evidence: &mut [u32; 2],
) -> u32
    ensures { Scores
        (set_score_by table.now priors.now 0 (record { 0 = pos }) words.now lengths.now
        (scoring_from min_base_quality_score sample_ploidy snp_heterozygosity
        heterozygosity_standard_deviation ref_model_deletion_qual active_region_alt_multiplier
        flow_based_reference_model))
        activity.old activity.new evidence.old evidence.new result }
{
    let params = scoring_params(
        min_base_quality_score,
        sample_ploidy,
        snp_heterozygosity,
        heterozygosity_standard_deviation,
        ref_model_deletion_qual,
        active_region_alt_multiplier,
        flow_based_reference_model,
    );
    let scored =
        multi_sample_scoring::haplotype_caller_activity_profile_state_multi_sample_by_tables(
            0,
            GenomePosition(pos),
            words,
            lengths,
            params,
            ScoringTables {
                contributions: table,
                priors,
            },
        );
    write_score(scored, activity, evidence)
}

// Writes a score's numbers and answers 0, or answers the refusal's number: `write_answer` with two places.
fn write_score(
    scored: Result<ActivityProfileState, Refusal>,
    activity: &mut [f64; 2],
    evidence: &mut [u32; 2],
) -> u32
    ensures { Scores (outcome_of scored)
        activity.old activity.new evidence.old evidence.new result }
{
    match scored {
        Ok(s) => {
            *activity = [s.active_prob, s.original_active_prob];
            *evidence = evidence_fields(s.evidence);
            0
        }
        Err(why) => why.number(),
    }
}

fn scoring_params(
    min_base_quality_score: u8,
    sample_ploidy: u8,
    snp_heterozygosity: f64,
    heterozygosity_standard_deviation: f64,
    ref_model_deletion_qual: u8,
    active_region_alt_multiplier: f64,
    flow_based_reference_model: bool,
) -> HaplotypeCallerActivityScoringParams
    ensures { result ≡ scoring_from min_base_quality_score sample_ploidy snp_heterozygosity
        heterozygosity_standard_deviation ref_model_deletion_qual active_region_alt_multiplier
        flow_based_reference_model }
{
    HaplotypeCallerActivityScoringParams {
        min_base_quality_score,
        sample_ploidy: Ploidy(sample_ploidy),
        snp_heterozygosity,
        heterozygosity_standard_deviation,
        ref_model_deletion_qual,
        active_region_alt_multiplier,
        flow_based_reference_model,
    }
}

fn evidence_fields(e: ActivityEvidence) -> [u32; 2]
    ensures { result ≡ evidence_fields e }
{
    match e {
        ActivityEvidence::Plain => [0, 0],
        ActivityEvidence::HighQualitySoftClips { clip_bases } => [1, clip_bases],
    }
}

// Counts the soft-clipped bases of a quality above 28, which 255 is not, along CIGAR words. Answers 0 with the count
// written, or the number of a refusal, which writes nothing.
pub fn region_picker_count_clips(cigar: &[u32], qualities: &[u8], count: &mut u64) -> u32
    ensures { Answers (λ n. n) (clip_count cigar.now qualities.now)
        count.old count.new result }
{
    let counted = hq_soft_clip::count_high_quality_soft_clip_bases_rcm(cigar, qualities);
    write_answer(counted, count)
}
