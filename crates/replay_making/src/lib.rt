// Answers of the elementary functions, the kernel and the making of a profile (docs/LISTS.md, 1 to 9), and of the cells that it needs (19),
// replayed through the proved library. No public function has a `requires`.
#![tactic(auto)]

mod cells;
mod kernel;

ghost use Rattle.std.specs.Prelude.{◌≡◌, true, ◌⊎◌, ◌≤◌};
ghost use Rattle.answer_list.specs.Functions.{function_number};

use answer_list::{Compared, Function, double_at};
pub use kernel::params_of;

// Whether the library's results are those of the answer; true of these functions alone. The function is given by its
// number: the clause says of every number that it is one of these where the answer is true, also of one that is no function's.
// No crate calls it now; docs/changes/U5.md names it and its clause.
pub fn replay(function: u64, words: &[u64]) -> bool
    ensures { result ≡ true → ((1 ≤ function) × (function ≤ 9)) ⊎ (function ≡ 19) }
{
    Function::try_from(function).is_ok_and(|asked| agrees(asked, words))
}

// Whether the library's results are those of an answer of that function; true of these functions alone.
pub fn agrees(function: Function, words: &[u64]) -> bool
    ensures { result ≡ true →
        ((1 ≤ function_number function) × (function_number function ≤ 9)) ⊎ (function_number function ≡ 19) }
{
    match function {
        Function::Exp => one_double(words, elementary::exp(double_at(words, 0))),
        Function::Ln => one_double(words, elementary::ln(double_at(words, 0))),
        Function::Log10 => one_double(words, elementary::log10(double_at(words, 0))),
        Function::TenTo => one_double(words, elementary::ten_to(double_at(words, 0))),
        Function::LnGamma => one_double(words, elementary::ln_gamma(double_at(words, 0))),
        Function::NormalDistribution => kernel::normal_distribution(words),
        Function::MakeGaussianKernel => kernel::make_gaussian_kernel(words),
        Function::AdaptiveFilterSize => kernel::adaptive_filter_size(words),
        Function::Making => kernel::making(words),
        Function::CellsNeeded => cells::cells_needed(words),
        _ => false,
    }
}

// The result of a function of one double. It takes the result, and not the function: one of another crate as a value did
// not prove, and five closures are no plainer.
fn one_double(words: &[u64], r: f64) -> bool {
    Compared::starting(words, 1).double(r).whole()
}
