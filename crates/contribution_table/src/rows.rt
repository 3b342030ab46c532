// The rows of a table that serves some settings, and the sums of a pile by them.
ghost use Rattle.std.specs.Prelude.{◌≡◌, ◌+◌, ◌-◌, ◌*◌, ◌/◌, ◌%◌, ◌^◌, ◌<◌, ◌≤◌, cond, length};
ghost use Rattle.std.specs.List.{fold};
ghost use Rattle.lists.specs.Each.{tabulate};
ghost use Rattle.genome.specs.Ranges.{missing_quality};
ghost use Rattle.genotype_likelihoods.specs.Likelihoods.{counted};
ghost use Rattle.contribution_table.specs.Table.{ploidy_of, row_length, rows_length, sum_at, likelihood_at};
ghost use Rattle.contribution_table.specs.Sums.{no_sums, all_taken, sums_from, sum_in};

use crate::{ROWS, Sums};
use genotype_likelihoods::HaplotypeCallerActivityScoringParams;
use pileup_words::PileupObservation;

// The rows, each with `row` entries, with log10 of the ploidy behind them, and the settings that they serve: a deletion has a
// quality, and so a row.
#[derive(Clone, Copy)]
pub(crate) struct Rows<'a> {
    pub(crate) entries: &'a [f64],
    pub(crate) row: usize,
    pub(crate) params: HaplotypeCallerActivityScoringParams,
    ghost of_ploidy: { row ≡ row_length (ploidy_of params) },
    ghost small: { row ≤ 256 },
    ghost whole: { rows_length (ploidy_of params) ≤ length entries.now },
    ghost deletions: { params.ref_model_deletion_qual < missing_quality },
}

impl<'a> Rows<'a> {
    // Writes each genotype's likelihood.
    pub(crate) fn write_likelihoods(&self, gl: &mut [f64], pile: &[u32])
        requires { length gl.old ≤ self.now.row }
        ensures { gl.new
            ≡ tabulate
            (likelihood_at self.now.entries.now self.now.params pile.now
            (fold (counted self.now.params) 0 pile.now)) (length gl.old) }
    {
        let read_count = self.write_sums(gl, pile);
        let log10_ploidy = self.entries[ROWS * self.row];
        let denom = std::num::nearest_u64_to_f64(read_count) * log10_ploidy;
        genotype_likelihoods::subtract(gl, denom);
    }

    // Writes each genotype's sum, four genotypes at a time. Answers how many words are not skipped, where there is a
    // genotype.
    fn write_sums(&self, gl: &mut [f64], pile: &[u32]) -> u64
        requires { length gl.old ≤ self.now.row }
        ensures value { 0 < length gl.old → result ≡ fold (counted self.now.params) 0 pile.now }
        ensures gl_after { gl.new
            ≡ tabulate (sum_at self.now.entries.now self.now.params pile.now) (length gl.old) }
    {
        let mut sums = Sums::default();
        for (i, x) in gl.iter_mut().enumerate() {
            sums = self.sums_at(sums, pile, i);
            *x = sum_in(sums, i % 4);
        }
        sums.count
    }

    // The sums of the four genotypes that genotype i is one of; within the four they are at hand. By index: what is written
    // over the items of a `chunks_mut` is lost to the proof.
    fn sums_at(&self, sums: Sums, pile: &[u32], i: usize) -> Sums
        requires { (i < self.now.row)
            × (0 < i % 4
            → sums ≡ sums_from self.now.entries.now self.now.params pile.now (i / 4 * 4)) }
        ensures { result ≡ sums_from self.now.entries.now self.now.params pile.now (i / 4 * 4) }
    {
        if i % 4 == 0 {
            return self.sums_from(pile, i);
        }
        sums
    }

    // The sums of genotypes i to i + 3. Their i is a place, from sums_at: a type of it would be taken apart at each index.
    fn sums_from(&self, pile: &[u32], i: usize) -> Sums
        requires { i + 4 ≤ self.now.row }
        ensures { result ≡ sums_from self.now.entries.now self.now.params pile.now i }
    {
        let mut sums = Sums::default();
        for w in pile {
            sums = self.with_word(sums, *w, i);
        }
        sums
    }

    // The sums with a word more, which is skipped or adds its row's entries. Its count is a count of a slice's words: the loop
    // knows that it is not the largest.
    fn with_word(&self, sums: Sums, w: u32, i: usize) -> Sums
        requires { (sums.count < 2 ^ 64 - 1) × (i + 4 ≤ self.now.row) }
        ensures { result ≡ all_taken self.now.entries.now self.now.params i sums w }
    {
        let obs = PileupObservation::from_word(w);
        let qual = genotype_likelihoods::effective_qual(obs, self.params);
        if genotype_likelihoods::skip_observation(obs, qual, self.params) {
            return sums;
        }
        let at = place_of(qual, obs.is_alt, self.row, i);
        Sums {
            count: sums.count + 1,
            a: sums.a + self.entries[at],
            b: sums.b + self.entries[at + 1],
            c: sums.c + self.entries[at + 2],
            d: sums.d + self.entries[at + 3],
        }
    }
}

// The place of genotype i in the row of an observation. Quality and alternate are arguments, as genotype_contribution, which
// fills the rows, takes them: the quality is the one that counts, and not the observation's own.
fn place_of(qual: u8, is_alt: bool, row: usize, i: usize) -> usize
    requires { (qual < missing_quality) × (row ≤ 256) × (i + 4 ≤ row) }
    ensures { (result ≡ (qual * 2 + cond is_alt 1 0) * row + i) × (result + 4 ≤ 510 * row) }
{
    let above = row_of(qual, is_alt);
    above * row + i
}

fn row_of(qual: u8, is_alt: bool) -> usize
    requires { qual < missing_quality }
    ensures { (result ≡ qual * 2 + cond is_alt 1 0) × (result < 510) }
{
    usize::from(qual) * 2 + usize::from(is_alt)
}

// The sum at a place in the four.
#[tactic(auto, using(std::proofs::lemmas::Bool::Decides::nat_tests), unfolding(crate::specs::Sums::sum_in))]
fn sum_in(sums: Sums, place: usize) -> f64
    ensures { result ≡ sum_in sums place }
{
    match place {
        0 => sums.a,
        1 => sums.b,
        2 => sums.c,
        _ => sums.d,
    }
}
