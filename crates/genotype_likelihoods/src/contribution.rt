// What one observation contributes to one genotype: a function of its quality, whether it is alternate, the genotype and the ploidy alone.
ghost use Rattle.std.specs.Prelude.{◌≡◌};
ghost use Rattle.genotype_likelihoods.specs.Contribution.{qual_to_prob_log10, qual_to_error_prob_log10_third};
ghost use Rattle.genotype_likelihoods.specs.Contribution.{log10_whole, contribution_of};

use genome::Ploidy;

// log10 of the likelihood of the read under a genotype with `genotype` copies of the alternate of `ploidy`, times the ploidy.
#[tactic(auto, using(std::proofs::lemmas::Bool::Decides::nat_tests), unfolding(crate::specs::Contribution::contribution_of))]
pub fn genotype_contribution(qual: u8, is_alt: bool, genotype: usize, ploidy: Ploidy) -> f64
    ensures { result ≡ contribution_of qual is_alt genotype ploidy.0 }
{
    let right = qual_to_prob_log10(qual);
    let wrong = qual_to_error_prob_log10_third(qual);
    let reference_likelihood = if is_alt { wrong } else { right };
    let non_ref_likelihood = if is_alt { right } else { wrong };
    let n = u64::from(ploidy.0);
    let i = genotype as u64;
    if i == 0 {
        return reference_likelihood + log10_whole(n);
    }
    if i == n {
        return non_ref_likelihood + log10_whole(n);
    }
    let r = reference_likelihood + log10_whole(numbers::monus(n, i));
    let a = non_ref_likelihood + log10_whole(i);
    log10_sums::approximate_log10_sum_log10_pair(r, a)
}

// log10 of the probability that a base of this quality is right.
#[tactic(auto, unfolding(crate::specs::Contribution::qual_to_prob_log10, crate::specs::Contribution::error_prob, error_probabilities::specs::ErrorProb::error_prob))]
fn qual_to_prob_log10(qual: u8) -> f64
    ensures { result ≡ qual_to_prob_log10 qual }
{
    elementary::log10(1.0 - error_probabilities::error_probability_by_steps(qual))
}

// log10 of the probability that it is one certain wrong base, of three.
#[tactic(auto, unfolding(crate::specs::Contribution::qual_to_error_prob_log10_third))]
fn qual_to_error_prob_log10_third(qual: u8) -> f64
    ensures { result ≡ qual_to_error_prob_log10_third qual }
{
    f64::from(qual) * -0.1 + -0.47712125471966244
}

fn log10_whole(n: u64) -> f64
    ensures { result ≡ log10_whole n }
{
    elementary::log10(std::num::nearest_u64_to_f64(n))
}
