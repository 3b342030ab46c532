// The likelihoods of every genotype over a whole pile, by a table.
ghost use Rattle.std.specs.Prelude.{◌≡◌, length};
ghost use Rattle.contribution_table.specs.Table.{serves, likelihoods_by};

use crate::HEADING;
use crate::fill::{row_length, table_length};
use crate::rows::Rows;
use genome::MISSING_QUALITY;
use genotype_likelihoods::HaplotypeCallerActivityScoringParams;

// Writes what `genotype_likelihoods::calc_ref_vs_any_log10_genotype_likelihoods` writes. A table that carries other
// settings, or is of another length than `table_length`, is not looked at, and neither is one with too few genotypes, or
// where the deletion quality is the missing one, which has no row.
pub fn calc_ref_vs_any_log10_genotype_likelihoods_by_table(
    gl: &mut [f64],
    pile: &[u32],
    params: HaplotypeCallerActivityScoringParams,
    table: &[f64],
)
    ensures { gl.new ≡ likelihoods_by table.now params (length gl.old) pile.now }
{
    if !is_for(table, gl.len(), params) {
        genotype_likelihoods::calc_ref_vs_any_log10_genotype_likelihoods(gl, pile, params);
        return;
    }
    let row = row_length(params.sample_ploidy);
    let rows = Rows {
        entries: &table[HEADING..],
        row,
        params,
    };
    rows.write_likelihoods(gl, pile);
}

// Whether a table carries these settings, and has entries for so many genotypes and for deletions.
fn is_for(table: &[f64], genotypes: usize, params: HaplotypeCallerActivityScoringParams) -> bool
    ensures { result ≡ serves table.now params genotypes }
{
    let p = params.sample_ploidy;
    let row = row_length(p);
    if table.len() != table_length(p) {
        return false;
    }
    let ploidy = numbers::same_positive(table[0], f64::from(p.0));
    let multiplier = numbers::same_positive(table[1], params.active_region_alt_multiplier);
    let entries = (genotypes <= row) & (params.ref_model_deletion_qual < MISSING_QUALITY);
    entries & (ploidy & multiplier)
}
