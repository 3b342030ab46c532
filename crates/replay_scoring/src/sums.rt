// Sums of numbers that are given by their log10.
use answer_list::{Compared, double_at, doubles_from, length_at};

// a, b; the sum.
pub(crate) fn pair_sum(words: &[u64]) -> bool {
    let r = log10_sums::approximate_log10_sum_log10_pair(double_at(words, 0), double_at(words, 1));
    Compared::starting(words, 2).double(r).whole()
}

// n, values[n]; the sum.
pub(crate) fn log10_sum(words: &[u64]) -> bool {
    let n = length_at(words, 0);
    let values = doubles_from(words, 1);
    let r = log10_sums::log10_sum_log10(&values[..n]);
    Compared::starting(words, 1 + n).double(r).whole()
}
