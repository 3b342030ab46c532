// Feeding the region program the words of a stream: what a program that prints, or one that compares, does with each
// word. No public function has a `requires`. Memory and tables are lent side by side, as to region_stream: tables may be
// shared by streams, and memory is one stream's own.
#![tactic(auto)]

ghost use Rattle.std.specs.Prelude.{◌≡◌, [], ◌∷◌, ◌+◌, ◌^◌, ◌<◌, length, drop};
ghost use Rattle.pileup_words.specs.Events.{last_event};
ghost use Rattle.region_program.specs.Feeding.{FedBy};
ghost use Rattle.region_program.specs.Stream.{seen};
ghost use Rattle.region_program.specs.Tables.{table_score};
ghost use Rattle.region_feed.specs.Feed.{fed_by, found_in, closing, Closer, Ends, Prints, PrintsWord};

use activity_profile::ActivityProfileRegion;
use pileup_words::StreamEvent;
use region_program::{RefusedStep, RegionStream, Step, StreamMemory, StreamRefusal, StreamTables};

// What comes of a word, or of the end of the input: a region to print, where there is one, or a refusal.
pub type Found = Result<Option<ActivityProfileRegion>, StreamRefusal>;

// The stream, the place of its next word, and what came of the word before.
#[derive(Clone, Copy)]
pub struct Fed {
    pub stream: RegionStream,
    pub at: usize,
    pub found: Found,
}

// Takes the observations that stand at `at`, and acts on the word behind them.
pub fn advance(
    s: RegionStream,
    words: &[u32],
    at: usize,
    memory: &mut StreamMemory,
    tables: &StreamTables,
) -> Fed
    ensures closer { Closer s (length words.now) at result }
    ensures prints { Prints (table_score tables.now.contributions tables.now.priors) result.found
        (seen s memory.old.pile memory.old.kernel memory.old.cells) (drop at words.now)
        (seen result.stream memory.new.pile memory.new.kernel memory.new.cells) (drop result.at words.now) }
{
    if at < words.len() {
        let observed = observation_runs::observations(s, &words[at..], &mut memory.pile);
        let next = at + observed.taken;
        if next < words.len() {
            return act_on(observed.stream, words[next], next, memory, tables);
        }
        return fed_to(observed.stream, next, Ok(None));
    }
    fed_to(s, at, Ok(None))
}

// Acts on the word at `at`: where that ends a pile, once more. One arm for the last two, `step => fed_by(step, at)`, was
// tried, and its proof did not close: it has that step by its variants, and not as what `act` answered.
fn act_on(
    s: RegionStream,
    word: u32,
    at: usize,
    memory: &mut StreamMemory,
    tables: &StreamTables,
) -> Fed
    requires { at + 1 < 2 ^ 64 }
    ensures ends { Ends s at result }
    ensures prints_word { PrintsWord (table_score tables.now.contributions tables.now.priors) word at result
        (seen s memory.old.pile memory.old.kernel memory.old.cells)
        (seen result.stream memory.new.pile memory.new.kernel memory.new.cells) }
{
    let event = pileup_words::event_of(word);
    match region_stream::act(event, s, memory, tables) {
        Ok(Step::Again(t)) => fed_by(region_stream::act(event, t, memory, tables), at),
        Ok(step) => fed_by(Ok(step), at),
        Err(refused) => fed_by(Err(refused), at),
    }
}

// What a step at the word at `at` leaves.
fn fed_by(step: Result<Step, RefusedStep>, at: usize) -> Fed
    requires { at + 1 < 2 ^ 64 }
    ensures { result ≡ fed_by step at }
{
    match step {
        Ok(Step::Next(t)) => fed_to(t, at + 1, Ok(None)),
        Ok(Step::Again(t)) => fed_to(t, at, Ok(None)),
        Ok(Step::Line(region, t)) => fed_to(t, at, Ok(Some(region))),
        Err(refused) => fed_to(refused.stream, at, Err(refused.why)),
    }
}

fn fed_to(stream: RegionStream, at: usize, found: Found) -> Fed
    ensures { result ≡ record { stream = stream; at = at; found = found } }
{
    Fed { stream, at, found }
}

// What comes of the end of the input, with a remainder of bytes or without: the pile that is open ends, and then the end is
// acted on. The answers of the first step are named one by one: an arm for the rest would not tell that they are no `Again`.
pub fn finish(
    s: RegionStream,
    remainder: bool,
    memory: &mut StreamMemory,
    tables: &StreamTables,
) -> Found
    ensures { FedBy (table_score tables.now.contributions tables.now.priors)
        (seen s memory.old.pile memory.old.kernel memory.old.cells)
        (last_event remainder ∷ []) (closing result) }
{
    let event = last_event(remainder);
    match region_stream::act(event, s, memory, tables) {
        Ok(Step::Again(t)) => found_in(region_stream::act(event, t, memory, tables)),
        Ok(Step::Line(region, _)) => Ok(Some(region)),
        Ok(Step::Next(_)) => Ok(None),
        Err(refused) => Err(refused.why),
    }
}

fn last_event(remainder: bool) -> StreamEvent
    ensures { result ≡ last_event remainder }
{
    if remainder {
        StreamEvent::Remainder
    } else {
        StreamEvent::End
    }
}

// What the caller finds in the last step.
fn found_in(step: Result<Step, RefusedStep>) -> Found
    ensures { result ≡ found_in step }
{
    match step {
        Ok(Step::Next(_)) | Ok(Step::Again(_)) => Ok(None),
        Ok(Step::Line(region, _)) => Ok(Some(region)),
        Err(stopped) => Err(stopped.why),
    }
}
