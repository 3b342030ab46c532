// The likelihoods of every genotype over a whole pile. The lent slice, the pile and the settings are arguments, as the public
// function takes them: a struct of them would be made there and read once.
ghost use Rattle.std.specs.Prelude.{◌≡◌, ◌<◌, ◌-◌, ◌^◌, cond, length};
ghost use Rattle.std.specs.List.{fold};
ghost use Rattle.lists.specs.Each.{each};
ghost use Rattle.doubles.specs.Constants.{one_f};
ghost use Rattle.genotype_likelihoods.specs.Likelihoods.{gained, less, counted, taken, likelihoods};

use crate::HaplotypeCallerActivityScoringParams;
use crate::contribution::genotype_contribution;
use crate::observation::{effective_qual, skip_observation};
use genome::Ploidy;
use pileup_words::PileupObservation;

// Writes the log10 likelihoods of the genotypes over the lent slice, entry i for i copies of the alternate; the Rust's
// have ploidy + 1 entries.
#[tactic(auto, unfolding(crate::specs::Likelihoods::likelihoods))]
pub fn calc_ref_vs_any_log10_genotype_likelihoods(
    gl: &mut [f64],
    pile: &[u32],
    params: HaplotypeCallerActivityScoringParams,
)
    ensures { gl.new ≡ likelihoods params (length gl.old) pile.now }
{
    gl.fill(0.0);
    let read_count = take_words(gl, pile, params);
    let p = params.sample_ploidy;
    let denom = std::num::nearest_u64_to_f64(read_count) * elementary::log10(f64::from(p.0));
    subtract(gl, denom);
}

// Adds each word in turn. Answers how many were not skipped.
fn take_words(gl: &mut [f64], pile: &[u32], params: HaplotypeCallerActivityScoringParams) -> u64
    ensures value { result ≡ fold (counted params) 0 pile.now }
    ensures gl_after { gl.new ≡ fold (taken params) gl.old pile.now }
{
    let mut n = 0;
    for w in pile {
        n = take_word(gl, n, *w, params);
    }
    n
}

// One word: skipped, or added to every genotype. n is a count of a slice's words, so below the largest: the loop knows it.
#[tactic(auto, unfolding(crate::specs::Likelihoods::taken, crate::specs::Likelihoods::counted))]
fn take_word(gl: &mut [f64], n: u64, w: u32, params: HaplotypeCallerActivityScoringParams) -> u64
    requires { n < 2 ^ 64 - 1 }
    ensures value { result ≡ counted params n w }
    ensures gl_after { gl.new ≡ taken params gl.old w }
{
    let obs = PileupObservation::from_word(w);
    let qual = effective_qual(obs, params);
    if skip_observation(obs, qual, params) {
        return n;
    }
    let weight = weight_of(obs.is_alt, params);
    gain(gl, qual, obs.is_alt, weight, params.sample_ploidy);
    n + 1
}

// The weight of an observation: the alternate has one of its own.
pub fn weight_of(is_alt: bool, params: HaplotypeCallerActivityScoringParams) -> f64
    ensures { result ≡ cond is_alt params.active_region_alt_multiplier one_f }
{
    if is_alt {
        params.active_region_alt_multiplier
    } else {
        1.0
    }
}

// Adds an observation of this quality and weight to every genotype.
fn gain(gl: &mut [f64], qual: u8, is_alt: bool, weight: f64, ploidy: Ploidy)
    ensures { gl.new ≡ each (gained qual is_alt weight ploidy.0) gl.old }
{
    for (i, x) in gl.iter_mut().enumerate() {
        *x += weight * genotype_contribution(qual, is_alt, i, ploidy);
    }
}

// Takes the same off every genotype.
pub fn subtract(gl: &mut [f64], denom: f64)
    ensures { gl.new ≡ each (less denom) gl.old }
{
    for x in gl.iter_mut() {
        *x -= denom;
    }
}
