// The probability that a sample is not all reference.
ghost use Rattle.std.specs.Prelude.{◌≡◌, ◌-◌, ◌^◌, ◌<◌, ◌≤◌, length};
ghost use Rattle.std.specs.Float.{binary64};
ghost use Rattle.std.specs.Float.Ieee.{mul};
ghost use Rattle.elementary.specs.Ln.{log10_e};
ghost use Rattle.lists.specs.Each.{each};
ghost use Rattle.genotype_posterior.specs.Posterior.{ref_pseudocount, snp_pseudocount, log_binomial, ln_prior};
ghost use Rattle.genotype_posterior.specs.Posterior.{unnormalized_all, non_ref, posterior, posterior_written};
ghost use Rattle.genotype_posterior.specs.Priors.{priors_length, prior_at, log10_priors, are_for, with_prior};
ghost use Rattle.genotype_posterior.specs.Priors.{unnormalized_by, posterior_by, posterior_written_by};

use crate::HEADING;
use genome::Ploidy;

// What the priors are made of, beside the ploidy: the heterozygosity, and its standard deviation. Private: the public functions,
// which docs/ARCHITECTURE.md names, take the two as they are, and their callers hold them among other settings.
#[derive(Clone, Copy)]
struct Heterozygosity {
    snp: f64,
    standard_deviation: f64,
}

impl Heterozygosity {
    // How many copies of the reference the prior counts.
    fn ref_pseudocount(self) -> f64
        ensures { result ≡ ref_pseudocount self.snp self.standard_deviation }
    {
        self.snp / (self.standard_deviation * self.standard_deviation)
    }

    // How many copies of the alternate the prior counts.
    fn snp_pseudocount(self) -> f64
        ensures { result ≡ snp_pseudocount self.snp self.standard_deviation }
    {
        self.snp * self.ref_pseudocount()
    }
}

// From the rounded likelihoods of ploidy + 1 genotypes, over which the unnormalized posteriors are written. 0.0, with
// nothing written, where the reference genotype is the likeliest; 0.0 too where it has the largest posterior.
pub fn calculate_single_sample_biallelic_non_ref_posterior(
    gl: &mut [f64],
    snp_heterozygosity: f64,
    heterozygosity_standard_deviation: f64,
) -> f64
    ensures value { result ≡ posterior snp_heterozygosity heterozygosity_standard_deviation gl.old }
    ensures gl_after { gl.new
        ≡ posterior_written snp_heterozygosity heterozygosity_standard_deviation gl.old }
{
    calculate_single_sample_biallelic_non_ref_posterior_by_priors(
        gl,
        snp_heterozygosity,
        heterozygosity_standard_deviation,
        &[],
    )
}

// Each likelihood with the log10 of its genotype's prior added, which is worked out. That there is a genotype stands in four contracts:
// the ploidy is one less than their number. A type of a slice that is not empty would be made twice in `.._by_priors`, to write and then
// to read, and read as a slice in every line.
fn write_unnormalized(gl: &mut [f64], settings: Heterozygosity)
    requires { 0 < length gl.old }
    ensures { gl.new ≡ unnormalized_all settings.snp settings.standard_deviation gl.old }
{
    let ploidy = gl.len() as u64 - 1;
    let ref_pc = settings.ref_pseudocount();
    let snp_pc = settings.snp_pseudocount();
    for (i, x) in gl.iter_mut().enumerate() {
        *x += log10_prior(ploidy, i as u64, ref_pc, snp_pc);
    }
}

// log10 of the prior of n copies of the alternate. The ploidy is one less than a slice's length, or 8 bits wide: its callers
// know that it is not the largest number. A type of it and n would be made at each genotype, and taken apart in each line.
fn log10_prior(ploidy: u64, n: u64, ref_pc: f64, snp_pc: f64) -> f64
    requires { (n ≤ ploidy) × (ploidy < 2 ^ 64 - 1) }
    ensures { result ≡ mul binary64 (ln_prior ploidy ref_pc snp_pc n) log10_e }
{
    ln_prior(ploidy, n, ref_pc, snp_pc) * elementary::LOG10_E
}

// The natural logarithm of the prior of n copies of the alternate.
#[tactic(auto, unfolding(crate::specs::Posterior::ln_prior))]
fn ln_prior(ploidy: u64, n: u64, ref_pc: f64, snp_pc: f64) -> f64
    requires { (n ≤ ploidy) × (ploidy < 2 ^ 64 - 1) }
    ensures { result ≡ ln_prior ploidy ref_pc snp_pc n }
{
    let copies = std::num::nearest_u64_to_f64(n);
    let all = std::num::nearest_u64_to_f64(ploidy);
    let binomial = log_binomial_coefficient_natural(ploidy, n);
    let alt = elementary::ln_gamma(copies + snp_pc);
    let reference = elementary::ln_gamma(all - copies + ref_pc);
    binomial + alt + reference
}

// The natural logarithm of n over k.
#[tactic(auto, unfolding(crate::specs::Posterior::log_binomial))]
fn log_binomial_coefficient_natural(n: u64, k: u64) -> f64
    requires { (k ≤ n) × (n < 2 ^ 64 - 1) }
    ensures { result ≡ log_binomial n k }
{
    let a = elementary::ln_gamma(std::num::nearest_u64_to_f64(n + 1));
    let b = elementary::ln_gamma(std::num::nearest_u64_to_f64(k + 1));
    let c = elementary::ln_gamma(std::num::nearest_u64_to_f64(n - k + 1));
    a - b - c
}

// 1 less the normalized posterior of the reference genotype, or 0.0 where that one is the largest.
#[tactic(auto, using(std::proofs::lemmas::Bool::Decides::nat_tests), unfolding(crate::specs::Posterior::non_ref))]
fn non_ref(u: &[f64]) -> f64
    requires { 0 < length u.now }
    ensures { result ≡ non_ref u.now }
{
    if log10_sums::max_element_index(u) == 0 {
        return 0.0;
    }
    let sum = log10_sums::log10_sum_log10(u);
    1.0 - elementary::ten_to(u[0] - sum)
}

// ---- by priors that are worked out once for the settings

// Fills the front of the slice with the list of these settings: the settings, then the log10 prior of each genotype, from
// no copy of the alternate on. A slice that is shorter than `priors_length` is left as it is.
pub fn fill_log10_priors(
    priors: &mut [f64],
    ploidy: Ploidy,
    snp_heterozygosity: f64,
    heterozygosity_standard_deviation: f64,
)
    ensures { priors.new
        ≡ log10_priors ploidy.0 snp_heterozygosity heterozygosity_standard_deviation priors.old }
{
    let n = priors_length(ploidy);
    if priors.len() < n {
        return;
    }
    let settings = Heterozygosity {
        snp: snp_heterozygosity,
        standard_deviation: heterozygosity_standard_deviation,
    };
    for (j, x) in priors[..n].iter_mut().enumerate() {
        *x = prior_at(j, ploidy, settings);
    }
}

// How many numbers the list of a ploidy has.
pub fn priors_length(ploidy: Ploidy) -> usize
    ensures { result ≡ priors_length ploidy.0 }
{
    HEADING + (usize::from(ploidy.0) + 1)
}

// What stands at a place of the list.
#[tactic(auto, using(std::proofs::lemmas::Bool::Decides::nat_tests), unfolding(crate::specs::Priors::prior_at, crate::specs::Priors::log10_prior))]
fn prior_at(j: usize, ploidy: Ploidy, settings: Heterozygosity) -> f64
    requires { j < priors_length ploidy.0 }
    ensures { result ≡ prior_at ploidy.0 settings.snp settings.standard_deviation j }
{
    match j {
        0 => f64::from(ploidy.0),
        1 => settings.snp,
        2 => settings.standard_deviation,
        _ => {
            let ref_pc = settings.ref_pseudocount();
            let snp_pc = settings.snp_pseudocount();
            log10_prior(u64::from(ploidy.0), (j - HEADING) as u64, ref_pc, snp_pc)
        }
    }
}

// As `calculate_single_sample_biallelic_non_ref_posterior`, by a list that `fill_log10_priors` filled. A list that carries
// other settings, or is of another length than `priors_length`, is not looked at.
#[tactic(auto, using(std::proofs::lemmas::Bool::Decides::nat_tests), unfolding(crate::specs::Priors::posterior_by, crate::specs::Priors::posterior_written_by))]
pub fn calculate_single_sample_biallelic_non_ref_posterior_by_priors(
    gl: &mut [f64],
    snp_heterozygosity: f64,
    heterozygosity_standard_deviation: f64,
    priors: &[f64],
) -> f64
    ensures value { result
        ≡ posterior_by priors.now snp_heterozygosity heterozygosity_standard_deviation
        gl.old }
    ensures gl_after { gl.new
        ≡ posterior_written_by priors.now snp_heterozygosity heterozygosity_standard_deviation
        gl.old }
{
    if log10_sums::max_element_index(&gl[..]) == 0 {
        return 0.0;
    }
    let settings = Heterozygosity {
        snp: snp_heterozygosity,
        standard_deviation: heterozygosity_standard_deviation,
    };
    unnormalize(gl, settings, priors);
    non_ref(&gl[..])
}

// The same by the list, where it is for these settings.
fn unnormalize(gl: &mut [f64], settings: Heterozygosity, priors: &[f64])
    requires { 0 < length gl.old }
    ensures { gl.new
        ≡ unnormalized_by priors.now settings.snp settings.standard_deviation gl.old }
{
    if are_for(priors, gl.len(), settings) {
        add_priors(gl, &priors[HEADING..]);
        return;
    }
    write_unnormalized(gl, settings);
}

// Whether a list carries these settings, and has a prior for each of so many genotypes.
fn are_for(priors: &[f64], genotypes: usize, settings: Heterozygosity) -> bool
    requires { 0 < genotypes }
    ensures { result ≡ are_for priors.now genotypes settings.snp settings.standard_deviation }
{
    if priors.len() < HEADING {
        return false;
    }
    if priors.len() - HEADING != genotypes {
        return false;
    }
    let ploidy = std::num::nearest_u64_to_f64(genotypes as u64 - 1);
    let copies = numbers::same_positive(priors[0], ploidy);
    let mean = numbers::same_positive(priors[1], settings.snp);
    let spread = numbers::same_positive(priors[2], settings.standard_deviation);
    copies & (mean & spread)
}

// By index: with `zip` the loop has no invariant that speaks of the slice that is written.
fn add_priors(gl: &mut [f64], priors: &[f64])
    requires { length priors.now ≡ length gl.old }
    ensures { gl.new ≡ each (with_prior priors.now) gl.old }
{
    for (i, x) in gl.iter_mut().enumerate() {
        *x += priors[i];
    }
}
