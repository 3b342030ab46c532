// The sum of two numbers by a table of the Jacobian logarithm, worked out entry by entry.
ghost use Rattle.std.specs.Prelude.{◌≡◌};
ghost use Rattle.log10_sums.specs.Pair.{fast_round_java, jacobian_entry, jacobian, sum_ordered, approximate_log10_sum_log10_pair};

use crate::sums::neg_infinity;
use numbers::as_u64;

// log10 of 10 to a + 10 to b, to the table's steps.
#[tactic(auto, unfolding(crate::specs::Pair::approximate_log10_sum_log10_pair))]
pub fn approximate_log10_sum_log10_pair(a: f64, b: f64) -> f64
    ensures { result ≡ approximate_log10_sum_log10_pair a b }
{
    if a > b {
        return sum_ordered(b, a);
    }
    sum_ordered(a, b)
}

// The sum, where a is not the larger.
#[tactic(auto, unfolding(crate::specs::Pair::sum_ordered))]
fn sum_ordered(a: f64, b: f64) -> f64
    ensures { result ≡ sum_ordered a b }
{
    if a == neg_infinity() {
        return b;
    }
    let diff = b - a;
    if diff < 8.0 {
        return b + jacobian_log_table_get(diff);
    }
    b
}

// The Rust's name: the entry of its table, which is worked out here.
#[tactic(auto, unfolding(crate::specs::Pair::jacobian))]
fn jacobian_log_table_get(diff: f64) -> f64
    ensures { result ≡ jacobian diff }
{
    let idx = fast_round_java(diff * 10000.0);
    jacobian_entry(idx.min(80000) as u32)
}

#[tactic(auto, unfolding(crate::specs::Pair::jacobian_entry))]
fn jacobian_entry(k: u32) -> f64
    ensures { result ≡ jacobian_entry k }
{
    elementary::log10(1.0 + elementary::ten_to(-f64::from(k) * 0.0001))
}

#[tactic(auto, unfolding(crate::specs::Pair::fast_round_java))]
fn fast_round_java(d: f64) -> u64
    ensures { result ≡ fast_round_java d }
{
    if d > 0.0 {
        as_u64(d + 0.5)
    } else {
        as_u64(d - 0.5)
    }
}
