// A run of the region program: blocks of words in, the text of a listing or of a sheet out, and of a refusal. What a
// block prints is worked out here, byte by byte; reading and writing are the program's. No public function has a
// `requires`. Memory and tables are lent side by side, as to region_stream: tables may be shared by runs, and memory is one
// run's own. `Running` holds a run with all that is lent to it.
#![tactic(auto)]

ghost use Rattle.std.specs.Prelude.{◌≡◌, false, ◌++◌, ◌+◌, ◌≤◌, ◌<◌, length, take};
ghost use Rattle.region_program.specs.Stream.{seen, new_stream};
ghost use Rattle.region_program.specs.Tables.{table_score};
ghost use Rattle.region_run.specs.Run.{found_text, form_after, Steps, Feeds, Finishes, ROOM as room_of};
ghost use Rattle.region_print.specs.Buffers.{MOST as most_added};

mod running;

use region_feed::Found;
use region_print::Form;
use region_program::{RegionStream, StreamMemory, StreamTables};
pub use running::Running;

// The bytes of a block's text. standard_io has one of the same size: region_run does not read or write, and has its own.
pub const BLOCK: usize = 65536;

// With so many in use there is room for whatever one step prints.
const ROOM: usize = 65430;

// The stream, the form of what it prints next, the place of its next word in the block, how many bytes of text wait to be
// written, and whether the run is over. A flag beside the rest: of a run that is over too, the last text waits to be written.
#[derive(Clone, Copy)]
pub struct RegionRun {
    pub stream: RegionStream,
    pub form: Form,
    pub at: usize,
    pub used: usize,
    pub over: bool,
}

// A run before its first word, and how it is printed.
pub fn start(form: Form) -> RegionRun
    ensures { result ≡ record { stream = new_stream; form = form; at = 0; used = 0; over = false } }
{
    RegionRun {
        stream: region_stream::new_stream(),
        form,
        at: 0,
        used: 0,
        over: false,
    }
}

// Feeds the words from `at` on: until they are done, until a line might find no room, or until a refusal ends the run.
// The text of what they print stands at the front of `text`, `used` bytes of it.
pub fn feed(
    r: RegionRun,
    words: &[u32],
    text: &mut [u8; BLOCK],
    memory: &mut StreamMemory,
    tables: &StreamTables,
) -> RegionRun
    ensures { Feeds (table_score tables.now.contributions tables.now.priors) r result words.now text.new
        (seen r.stream memory.old.pile memory.old.kernel memory.old.cells)
        (seen result.stream memory.new.pile memory.new.kernel memory.new.cells) }
{
    let mut s = RegionRun {
        used: 0,
        over: false,
        ..r
    };
    // No `for`: the place is the run's own, and a step moves it on by a run of words, or not at all.
    while s.at < words.len() {
        if s.used > ROOM {
            return s;
        }
        s = step(s, words, text, memory, tables);
    }
    s
}

// The end of the input, with a remainder of bytes or without: the run is over, and its last text stands at the front of `text`.
pub fn end(
    r: RegionRun,
    remainder: bool,
    text: &mut [u8; BLOCK],
    memory: &mut StreamMemory,
    tables: &StreamTables,
) -> RegionRun
    ensures { Finishes (table_score tables.now.contributions tables.now.priors) r.form remainder result text.new
        (seen r.stream memory.old.pile memory.old.kernel memory.old.cells) }
{
    let found = region_feed::finish(r.stream, remainder, memory, tables);
    let behind = print(found, r.form, text, 0);
    let form = form_after(found, r.form);
    let used = region_print::print_end(form, text, behind);
    RegionRun {
        form,
        used,
        over: true,
        ..r
    }
}

// One step at the next word, and the text of what comes of it behind that of the steps before.
fn step(
    r: RegionRun,
    words: &[u32],
    text: &mut [u8; BLOCK],
    memory: &mut StreamMemory,
    tables: &StreamTables,
) -> RegionRun
    requires { (r.at < length words.now) × (r.used ≤ room_of) }
    ensures { Steps (table_score tables.now.contributions tables.now.priors) r result words.now
        text.old text.new
        (seen r.stream memory.old.pile memory.old.kernel memory.old.cells)
        (seen result.stream memory.new.pile memory.new.kernel memory.new.cells) }
{
    let fed = region_feed::advance(r.stream, words, r.at, memory, tables);
    let used = print(fed.found, r.form, text, r.used);
    let form = form_after(fed.found, r.form);
    let over = fed.found.is_err();
    let stepped = RegionRun {
        stream: fed.stream,
        form,
        at: fed.at,
        used,
        over,
    };
    if over {
        return RegionRun {
            at: words.len(),
            ..stepped
        };
    }
    stepped
}

// Writes the text of what is found behind the bytes in use, and answers how many are in use then.
fn print(found: Found, form: Form, text: &mut [u8; BLOCK], used: usize) -> usize
    requires { used ≤ room_of }
    ensures upper_bound { result ≤ used + most_added }
    ensures text_after { take result text.new ≡ take used text.old ++ found_text form found }
{
    match found {
        Ok(None) => used,
        Ok(Some(region)) => region_print::print_region(region, form, text, used),
        Err(why) => region_print::print_refusal(why.refusal, why.index, form, text, used),
    }
}

// The form of what is printed next.
fn form_after(found: Found, form: Form) -> Form
    ensures { result ≡ form_after form found }
{
    match found {
        Ok(None) => form,
        Ok(Some(_)) => form.after_region(),
        Err(_) => form.ended(),
    }
}
