// Answers of the soft-clip count, of scoring and of its sums (docs/LISTS.md, 13 to 16), and of scoring a set (20), replayed
// through the proved library. No public function has a `requires`.
#![tactic(auto)]

mod clips;
mod scores;
mod sums;

ghost use Rattle.answer_list.specs.Functions.{function_number};
ghost use Rattle.std.specs.Prelude.{◌≡◌, ◌≤◌, true, ◌⊎◌};

use answer_list::Function;

// Whether the library's results are those of the answer; true of these functions alone. The function is given by its
// number: the clause says of every number that it is one of these where the answer is true, also of one that is no function's.
// No crate calls it now; docs/changes/U6.md and U7.md name it and its clause.
pub fn replay(function: u64, words: &[u64]) -> bool
    ensures { result ≡ true → ((13 ≤ function) × (function ≤ 16)) ⊎ (function ≡ 20) }
{
    Function::try_from(function).is_ok_and(|asked| agrees(asked, words))
}

// Whether the library's results are those of an answer of that function; true of these functions alone.
pub fn agrees(function: Function, words: &[u64]) -> bool
    ensures { result ≡ true →
        ((13 ≤ function_number function) × (function_number function ≤ 16)) ⊎ (function_number function ≡ 20) }
{
    match function {
        Function::ClipCount => clips::clip_count(words),
        Function::Score => scores::score(words),
        Function::PairSum => sums::pair_sum(words),
        Function::Log10Sum => sums::log10_sum(words),
        Function::SetScore => scores::score_set(words),
        _ => false,
    }
}
