// The sum of a list of numbers, and its largest.
ghost use Rattle.std.specs.Prelude.{◌≡◌, true, cond, ◌||◌, ◌-◌, ◌≤◌, length};
ghost use Rattle.std.specs.Float.{binary64, inf};
ghost use Rattle.std.specs.Float.Ieee.{add, sub, eq};
ghost use Rattle.elementary.specs.Exp.{ten_to_of};
ghost use Rattle.log10_sums.specs.Sums.{max_element_index, powers, log_or_zero, sum_from, log10_sum_log10};

// log10 of 0, by a name, since proofs see the constant as its bit pattern.
pub fn neg_infinity() -> f64
    ensures { result ≡ inf true }
{
    f64::NEG_INFINITY
}

// log10 of the sum of 10 to each of the values.
#[tactic(auto, using(std::proofs::lemmas::Bool::Decides::nat_tests), unfolding(crate::specs::Sums::log10_sum_log10))]
pub fn log10_sum_log10(values: &[f64]) -> f64
    ensures { result ≡ log10_sum_log10 values.now }
{
    let n = values.len();
    if n == 0 {
        return neg_infinity();
    }
    if n == 1 {
        return values[0];
    }
    let m = max_element_index(values);
    let top = values[m];
    sum_from(values, m, top)
}

// The index of the largest value, the first of several; 0 where there is none: a number and no Option, as the clause `value` and the
// Rust's have it. region_cells' peak_index walks alike, four cells at a time: each is the definition of its name, which
// docs/ARCHITECTURE.md names.
pub fn max_element_index(values: &[f64]) -> usize
    ensures value { result ≡ max_element_index values.now }
    ensures upper_bound { result ≤ length values.now - 1 }
{
    let mut m = 0;
    for i in 1..values.len() {
        if values[i] > values[m] {
            m = i;
        }
    }
    m
}

// The sum from its largest value on, which is value m.
#[tactic(auto, unfolding(crate::specs::Sums::sum_from))]
fn sum_from(values: &[f64], m: usize, top: f64) -> f64
    ensures { result ≡ sum_from values.now m top }
{
    if top == neg_infinity() {
        return top;
    }
    let s = powers_of(values, m, top);
    top + log_or_zero(s)
}

// 1 and, for each value but value m, 10 to the value less the largest.
fn powers_of(values: &[f64], m: usize, top: f64) -> f64
    ensures { result ≡ powers values.now m top }
{
    let mut s = 1.0;
    for (i, x) in values.iter().enumerate() {
        s = with_power(s, *x, top, i == m);
    }
    s
}

// s with one power more, but for the largest value itself and for minus infinity.
fn with_power(s: f64, x: f64, top: f64, largest: bool) -> f64
    ensures { result ≡ cond (largest || eq x (inf true)) s (add binary64 s (ten_to_of (sub binary64 x top))) }
{
    if largest | (x == neg_infinity()) {
        return s;
    }
    s + elementary::ten_to(x - top)
}

#[tactic(auto, unfolding(crate::specs::Sums::log_or_zero))]
fn log_or_zero(s: f64) -> f64
    ensures { result ≡ log_or_zero s }
{
    if s != 1.0 {
        return elementary::log10(s);
    }
    0.0
}
