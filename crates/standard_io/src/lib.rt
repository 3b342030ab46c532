// Standard input as little-endian words, block by block, and standard output as blocks of text. A call that a signal
// interrupts is tried again. No public function has a `requires`.
#![tactic(auto)]

mod reading;
mod writing;

pub use reading::read_words;
pub use writing::write_front;

// The bytes of a block. region_run does not read or write, and has its own for the text.
pub const BLOCK: usize = 65536;

// The words of a block.
pub const WORDS: usize = 16384;

// What a reading brings.
#[derive(Clone, Copy)]
pub enum Input {
    // So many words, and so many bytes kept of a word that is not whole yet. The words are at the front of what was lent: a
    // slice of them here would keep the lent memory lent, and the definition `Reads` is of the count.
    Words { count: usize, kept: usize },
    // The end of the input, and whether bytes are left over that are no whole word.
    End { remainder: bool },
}
