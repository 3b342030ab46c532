// A run that holds what it works on, for a caller who has one run, and one block of text, at a time.
ghost use Rattle.std.specs.Prelude.{◌≡◌, ◌<◌, true, false, [], length, take, drop};
ghost use Rattle.region_program.specs.Stream.{new_stream};
ghost use Rattle.region_run.specs.Run.{Feeds, Finishes};
ghost use Rattle.region_run.specs.Running.{scoring_of, reading_of, at_front, to_do};

use crate::{BLOCK, RegionRun};
use region_print::Form;
use region_program::{StreamMemory, StreamTables};

// A run, the text that waits to be written, its memory, and the tables that it scores by.
#[derive(Drop)]
pub struct Running<'a> {
    pub run: RegionRun,
    pub text: [u8; BLOCK],
    pub memory: StreamMemory,
    pub tables: &'a StreamTables,
}

impl<'a> Running<'a> {
    // A run before its first word, with no text yet.
    pub fn starting(form: Form, tables: &'a StreamTables) -> Running<'a>
        ensures run_value { result.run ≡ record { stream = new_stream; form = form; at = 0; used = 0; over = false } }
        ensures same_tables { result.tables.now ≡ tables.now }
    {
        Running {
            run: crate::start(form),
            text: [0; BLOCK],
            memory: StreamMemory::new(),
            tables,
        }
    }

    // Feeds the words of a block, as `feed` does, and answers those that are left: none where a refusal ends the run.
    pub fn feed<'w>(&mut self, words: &'w [u32]) -> &'w [u32]
        ensures feeds { Feeds (scoring_of self.old) (at_front self.old.run) self.new.run words.now self.new.text
            (reading_of self.old) (reading_of self.new) }
        ensures left { self.new.run.over ≡ false → result.now ≡ drop self.new.run.at words.now }
        ensures none_left { self.new.run.over ≡ true → result.now ≡ [] }
        ensures nearer { 0 < length words.now → to_do self.new.run result.now < to_do self.old.run words.now }
        ensures same_tables { self.new.tables ≡ self.old.tables }
    {
        let run = RegionRun { at: 0, ..self.run };
        self.run = crate::feed(run, words, &mut self.text, &mut self.memory, self.tables);
        // `feed` leaves a run that is over at the end of the block, but its clause, `Feeds`, does not say so.
        if self.run.over {
            return &words[words.len()..];
        }
        &words[self.run.at..]
    }

    // The end of the input, as `end` has it: the run is over, and its last text waits.
    pub fn end(&mut self, remainder: bool)
        ensures finishes { Finishes (scoring_of self.old) self.old.run.form remainder self.new.run self.new.text
            (reading_of self.old) }
        ensures same_tables { self.new.tables ≡ self.old.tables }
    {
        self.run = crate::end(
            self.run,
            remainder,
            &mut self.text,
            &mut self.memory,
            self.tables,
        );
    }

    // The text of the last call.
    pub fn printed(&self) -> &[u8]
        ensures { result.now ≡ take self.now.run.used self.now.text }
    {
        &self.text[..self.run.used.min(BLOCK)]
    }
}
