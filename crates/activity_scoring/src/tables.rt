// Filling the tables that scoring reads.
ghost use Rattle.std.specs.Prelude.{◌≡◌, length};
ghost use Rattle.activity_profile.specs.Verdict.{verdict_of};
ghost use Rattle.activity_scoring.specs.Tables.{fill_verdict, table_after, priors_after};

use genome::Refusal;
use genotype_likelihoods::HaplotypeCallerActivityScoringParams;

// Fills the front of both slices for these settings. Refuses a setting outside its range, then a slice that is shorter
// than `contribution_table::table_length` or `genotype_posterior::priors_length`; a refusal writes nothing.
#[tactic(auto, using(std::proofs::lemmas::Bool::Decides::nat_tests), unfolding(crate::specs::Tables::fill_verdict))]
pub fn fill_tables(
    table: &mut [f64],
    priors: &mut [f64],
    params: HaplotypeCallerActivityScoringParams,
) -> Result<(), Refusal>
    ensures result_value { verdict_of result ≡ fill_verdict params (length table.old) (length priors.old) }
    ensures table_after { table.new ≡ table_after params table.old priors.old }
    ensures priors_after { priors.new ≡ priors_after params table.old priors.old }
{
    if !params.in_range() {
        return Err(Refusal::Setting);
    }
    let ploidy = params.sample_ploidy;
    let short_table = table.len() < contribution_table::table_length(ploidy);
    let short_priors = priors.len() < genotype_posterior::priors_length(ploidy);
    if short_table | short_priors {
        return Err(Refusal::Buffer);
    }
    contribution_table::fill_contribution_table(table, params);
    genotype_posterior::fill_log10_priors(
        priors,
        ploidy,
        params.snp_heterozygosity,
        params.heterozygosity_standard_deviation,
    );
    Ok(())
}
