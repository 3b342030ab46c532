// What one pile contributes to the probability that no sample of a set is active.
ghost use Rattle.std.specs.Prelude.{◌≡◌};
ghost use Rattle.multi_sample_scoring.specs.Passed.{with_pile};

use activity_scoring::ScoringTables;
use genotype_likelihoods::HaplotypeCallerActivityScoringParams;

// The probability that no sample is active, after one pile more.
#[tactic(auto, using(std::proofs::lemmas::Bool::Decides::nat_tests), unfolding(crate::specs::Passed::with_pile, crate::specs::Sets::clamped, activity_scoring::specs::Tables::activity_by))]
pub(crate) fn with_pile(
    inactive_prob: f64,
    pile: &[u32],
    params: HaplotypeCallerActivityScoringParams,
    tables: ScoringTables,
) -> f64
    ensures { result ≡ with_pile tables.entry.contributions.now tables.entry.priors.now params inactive_prob pile.now }
{
    if pile.is_empty() {
        return inactive_prob;
    }
    let a = activity_scoring::activity_of(pile, params, tables);
    inactive_prob * (1.0 - a.probability).clamp(0.0, 1.0)
}
