// Replays an answer of the region program (docs/LISTS.md, 17 and 18) through the proved run, and compares every byte
// that it prints, as a listing or as a sheet. A stream is given as items: so many words, so many times over, the first of
// them raised by a step each time. No public function has a `requires`.
#![tactic(auto)]

ghost use Rattle.std.specs.Prelude.{◌≡◌, ◌≤◌, length};

use answer_list::{Compared, number_at, word_at};
use region_print::Form;
use region_program::StreamTables;
use region_run::Running;

// Whether a run over the items, and then to the end of the input, prints what the answer has.
pub fn stream(form: Form, words: &[u64], tables: &StreamTables) -> bool {
    let length = text_of(words);
    let results = length.wrapping_add(1);
    let mut replay = Replay {
        running: Running::starting(form, tables),
        compared: Compared::starting(words, results),
    };
    replay.items();
    replay.end();
    replay.compared.whole() & ends_at(words, results, word_at(words, length))
}

// The run, the words of the answer, and how far what the run printed was compared with them.
#[derive(Drop)]
struct Replay<'a> {
    running: Running<'a>,
    compared: Compared<'a>,
}

impl Replay<'_> {
    // The items, one behind the other: where one begins is known from the one before it alone.
    fn items(&mut self) {
        let words = self.compared.words;
        let mut at = 2;
        for _ in 0..count_of(words) {
            self.item(at);
            at = behind(words, at);
        }
    }

    // The words of an item, so many times.
    fn item(&mut self, at: usize) {
        let words = self.compared.words;
        let step = number_at(words, at.wrapping_add(1));
        let mut raise = 0;
        for _ in 0..number_at(words, at) {
            if self.running.run.over {
                return;
            }
            self.group(at, raise);
            raise = raise.wrapping_add(step);
        }
    }

    // The words of an item once, the first raised.
    fn group(&mut self, at: usize, raise: u32) {
        let words = self.compared.words;
        let first = at.wrapping_add(3);
        for k in 0..number_at(words, at.wrapping_add(2)) as usize {
            if self.running.run.over {
                return;
            }
            let w = number_at(words, first.wrapping_add(k));
            self.word(if k == 0 { w.wrapping_add(raise) } else { w });
        }
    }

    // One word, fed until it is done; what it prints is compared as it comes.
    fn word(&mut self, w: u32) {
        let block = [w];
        let mut rest = &block[..];
        while !rest.is_empty() {
            rest = self.running.feed(rest);
            self.compare();
        }
    }

    // The end of the input, where the run is not over.
    fn end(&mut self) {
        if self.running.run.over {
            return;
        }
        let remainder = word_at(self.compared.words, 1) != 0;
        self.running.end(remainder);
        self.compare();
    }

    // With the text that is in use compared, each byte with a word of the answer.
    fn compare(&mut self)
        ensures { self.new.running ≡ self.old.running }
    {
        self.compared = with_bytes(self.compared, self.running.printed());
    }
}

// With these bytes compared, each with a word of the answer.
fn with_bytes<'a>(compared: Compared<'a>, bytes: &[u8]) -> Compared<'a> {
    bytes
        .iter()
        .fold(compared, |c, byte| c.word(u64::from(*byte)))
}

// Whether so many words stand from `from` on.
fn ends_at(words: &[u64], from: usize, count: u64) -> bool {
    (from as u64).wrapping_add(count) == words.len() as u64
}

// How many items there are; an answer has more words than items.
fn count_of(words: &[u64]) -> usize
    ensures { result ≤ length words.now }
{
    word_at(words, 0).min(words.len() as u64) as usize
}

// The word behind the items: the length of what is printed.
fn text_of(words: &[u64]) -> usize {
    (0..count_of(words)).fold(2, |at, _| behind(words, at))
}

// The word behind the item at `at`: times, step, how many words, the words.
fn behind(words: &[u64], at: usize) -> usize {
    let n = number_at(words, at.wrapping_add(2));
    at.wrapping_add(3).wrapping_add(n as usize)
}
