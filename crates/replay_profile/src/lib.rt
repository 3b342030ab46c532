// Answers of adds, pops and runs of both on one profile (docs/LISTS.md, 10 to 12), replayed through the proved library.
// No public function has a `requires`.
#![tactic(auto)]

mod call;
mod run;

ghost use Rattle.answer_list.specs.Functions.{function_number};
ghost use Rattle.std.specs.Prelude.{◌≡◌, ◌≤◌, true};

use answer_list::Function;

// Whether the library's results are those of the answer; true of these functions alone. The function is given by its
// number: the clause says of every number that it is one of these where the answer is true, also of one that is no function's.
// No crate calls it now; docs/DECISIONS.md speaks of what it agrees to.
pub fn replay(function: u64, words: &[u64]) -> bool
    ensures { result ≡ true → (10 ≤ function) × (function ≤ 12) }
{
    Function::try_from(function).is_ok_and(|asked| agrees(asked, words))
}

// Whether the library's results are those of an answer of that function; true of these functions alone.
pub fn agrees(function: Function, words: &[u64]) -> bool
    ensures { result ≡ true → (10 ≤ function_number function) × (function_number function ≤ 12) }
{
    match function {
        Function::Add => call::add(words),
        Function::Pop => call::pop(words),
        Function::Run => run::run(words),
        _ => false,
    }
}
