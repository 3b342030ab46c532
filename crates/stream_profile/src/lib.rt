// What a stream does to its profile: it is made with the stream's settings, and each pile is scored by the lent tables
// and added. No public function has a `requires`.
#![tactic(auto)]

ghost use Rattle.std.specs.Prelude.{◌≡◌};
ghost use Rattle.genome.specs.Refusals.{outcome_of};
ghost use Rattle.region_program.specs.Program.{profile_made, score_added, score_cells};
ghost use Rattle.region_program.specs.Stream.{kernel_made};
ghost use Rattle.region_program.specs.Tables.{table_score, table_filled, list_filled};

use activity_profile::BandPassActivityProfile;
use activity_scoring::ScoringTables;
use genome::{GenomePosition, Refusal};
use genotype_likelihoods::HaplotypeCallerActivityScoringParams;
use region_program::{CONTIG, KERNEL, StreamTables};
use stream_settings::StreamSettings;

// Fills the tables that piles are scored by. To be called once, before the first event. As activity_scoring's `fill_tables`,
// which may refuse: here the settings are in their ranges and the arrays long enough.
pub fn fill_tables(tables: &mut StreamTables)
    ensures contributions_after { tables.new.contributions ≡ table_filled tables.old.contributions }
    ensures priors_after { tables.new.priors ≡ list_filled tables.old.priors }
{
    let params = HaplotypeCallerActivityScoringParams::default();
    contribution_table::fill_contribution_table(&mut tables.contributions, params);
    genotype_posterior::fill_log10_priors(
        &mut tables.priors,
        params.sample_ploidy,
        params.snp_heterozygosity,
        params.heterozygosity_standard_deviation,
    );
}

// Makes the profile that the settings ask for, its kernel at the front of the lent slice. A refusal writes nothing.
pub fn make_profile(
    settings: StreamSettings,
    kernel: &mut [f64; KERNEL],
) -> Result<BandPassActivityProfile, Refusal>
    ensures result_value { outcome_of result ≡ profile_made settings }
    ensures kernel_after { kernel.new ≡ kernel_made settings (profile_made settings) kernel.old }
{
    let mut full = [0.0f64; KERNEL];
    let mut narrow = [0.0f64; KERNEL];
    let params = settings.params();
    let p = profile_record::new(CONTIG, settings.contig_len, params, &mut full, &mut narrow)?;
    let part = params.normalized_kernel(p.filter_size, &full, &narrow);
    band_pass_kernel::copy_kernel(kernel, part);
    Ok(p)
}

// Scores a pile and adds its locus. A refusal leaves the cells as they were. Words, kernel and cells are slices, and no
// StreamMemory: score_added and score_cells are of lists of any length, and of pile and kernel the part in use is lent.
#[tactic(auto, unfolding(region_program::specs::Program::score_added, region_program::specs::Program::score_cells))]
pub fn add_pile(
    p: BandPassActivityProfile,
    locus: u32,
    words: &[u32],
    kernel: &[f64],
    cells: &mut [f64],
    tables: ScoringTables,
) -> Result<BandPassActivityProfile, Refusal>
    ensures result_value { outcome_of result
        ≡ score_added p cells.old kernel.now
        (table_score tables.entry.contributions.now tables.entry.priors.now locus words.now) }
    ensures cells_after { cells.new
        ≡ score_cells p cells.old kernel.now
        (table_score tables.entry.contributions.now tables.entry.priors.now locus words.now) }
{
    let scored = activity_scoring::haplotype_caller_activity_profile_state_by_tables(
        CONTIG,
        GenomePosition(locus),
        words,
        HaplotypeCallerActivityScoringParams::default(),
        tables,
    );
    profile_add::add(p, scored?, kernel, cells).map_err(|refused| refused.refusal)
}
