// Lists of answers (docs/LISTS.md): reading one answer at a time, and comparing its results with others, bit for bit.
// No public function has a `requires`.
#![tactic(auto)]

mod arrays;
mod compare;
mod functions;
mod read;
mod words;

pub use arrays::{doubles_from, filled, length_at, length_within};
pub use functions::{FUNCTIONS, Function, UnknownFunction};
pub use read::read_answer;
use std::io;
pub use words::{double_at, number_at, word_at};

// An answer: a function's number, and how many words of arguments and results now stand at the front of the lent slice. The
// number stays one, since a list may have any; the words stay with the caller, since the clause `FitsIn` speaks of the count.
#[derive(Clone, Copy, Debug)]
pub struct Answer {
    pub function: u64,
    pub count: usize,
}

// Why an answer could not be read. It has no `Display`: a malformed list is counted, and what a read says is handed on.
#[derive(Debug, Drop)]
pub enum ReadError {
    // A read failed.
    Io(io::Error),
    // The list ends within an answer, or an answer is longer than the lent slice.
    Malformed,
}

impl From<io::Error> for ReadError {
    ghost use Rattle.std.specs.Prelude.{◌≡◌};
    ghost use Rattle.answer_list.specs.declared.ReadError.TheVariants.{Io};

    ghost from_gives = { λ e r. r ≡ Io e };

    fn from(e: io::Error) -> ReadError {
        ReadError::Io(e)
    }
}

// The words of an answer, how far its results have been compared, and whether all so far were the same. The place is told
// where they differ too, since the arguments of the next call of a run stand behind it.
#[derive(Clone, Copy, Debug)]
pub struct Compared<'a> {
    pub words: &'a [u64],
    pub at: usize,
    pub same: bool,
}
