// The table, and how it is filled.
ghost use Rattle.std.specs.Prelude.{◌≡◌, ◌<◌, ◌≤◌};
ghost use Rattle.contribution_table.specs.Table.{ploidy_of, row_length, rows_length, table_length, cell_of, entry_at, cell_at, filled};

use crate::{HEADING, ROWS};
use genome::Ploidy;
use genotype_likelihoods::HaplotypeCallerActivityScoringParams;

// Fills the front of the slice with the table of these settings. A slice that is shorter than `table_length` is left as it is.
// genotype_posterior fills its priors alike; each says its own definition, and a function of both would take a closure for a loop.
pub fn fill_contribution_table(table: &mut [f64], params: HaplotypeCallerActivityScoringParams)
    ensures { table.new ≡ filled params table.old }
{
    let n = table_length(params.sample_ploidy);
    if table.len() < n {
        return;
    }
    for (j, x) in table[..n].iter_mut().enumerate() {
        *x = cell_at(j, params);
    }
}

// How many numbers the table of a ploidy has.
pub fn table_length(ploidy: Ploidy) -> usize
    ensures { result ≡ table_length ploidy.0 }
{
    HEADING + ROWS * row_length(ploidy) + 1
}

// The genotypes of a ploidy, rounded up to a multiple of 4.
pub fn row_length(ploidy: Ploidy) -> usize
    ensures { (result ≡ row_length ploidy.0) × (result ≤ 256) }
{
    usize::from(ploidy.0) / 4 * 4 + 4
}

// What stands at a place of the table: the two settings that it carries, then the rows.
#[tactic(auto, using(std::proofs::lemmas::Bool::Decides::nat_tests), unfolding(crate::specs::Table::cell_at))]
fn cell_at(j: usize, params: HaplotypeCallerActivityScoringParams) -> f64
    requires { j < table_length (ploidy_of params) }
    ensures { result ≡ cell_at params j }
{
    let p = params.sample_ploidy;
    match j {
        0 => f64::from(p.0),
        1 => params.active_region_alt_multiplier,
        _ => entry_at(j - HEADING, params),
    }
}

// What stands at a place of the rows.
#[tactic(auto, using(std::proofs::lemmas::Bool::Decides::nat_tests), unfolding(crate::specs::Table::entry_at))]
fn entry_at(j: usize, params: HaplotypeCallerActivityScoringParams) -> f64
    requires { j < rows_length (ploidy_of params) }
    ensures { result ≡ entry_at params j }
{
    let p = params.sample_ploidy;
    let n = row_length(p);
    if j < ROWS * n {
        return cell_of(j / n, j % n, params);
    }
    elementary::log10(f64::from(p.0))
}

// What a row's observation adds to a genotype.
fn cell_of(row: usize, genotype: usize, params: HaplotypeCallerActivityScoringParams) -> f64
    requires { row < 510 }
    ensures { result ≡ cell_of params row genotype }
{
    let is_alt = row % 2 == 1;
    let qual = (row / 2) as u8;
    let t = genotype_likelihoods::genotype_contribution(
        qual,
        is_alt,
        genotype,
        params.sample_ploidy,
    );
    genotype_likelihoods::weight_of(is_alt, params) * t
}
