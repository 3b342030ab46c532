// Replays lists of answers (docs/LISTS.md) through the proved library and compares every result bit for bit. No public
// function has a `requires`.
#![tactic(auto)]

ghost use Rattle.std.specs.Prelude.{◌≡◌, ◌+◌};
ghost use Rattle.answer_list.specs.Functions.{function_number};

use answer_list::{FUNCTIONS, Function, ReadError};
use region_print::Form;
use region_program::StreamTables;
use std::env::FillError;
use std::io::Read;
use std::rt::{Env, Files};
use std::{fmt, fs, io};

// The words of the longest answer.
const ANSWER: usize = 16384;

// The most answers of a list that are read. What stands behind them is not looked at: what the programs do with a longer list
// is kept.
const ANSWERS: u64 = 1000000000;

// The bytes of the longest name that the system opens, with the 0 behind it.
const NAME: usize = 4096;

// Replays the files that the program's arguments name, and prints how many answers of each function agree.
pub fn replay_arguments<R: Env + Files + Print + Eprint>(rt: &R) -> io::Result<()> {
    let mut findings = Findings::new();
    let mut name = [0u8; NAME];
    // By place, into lent memory: std's `args` gives strings, and no heap is used.
    for i in 1..usize::MAX {
        match rt.arg(i, &mut name) {
            Ok(n) => findings.file(rt, &name[..n])?,
            Err(FillError::TooLong) => eprintln!(rt; "argument {i}: longer than {NAME} bytes")?,
            Err(FillError::NotPresent) => break,
        }
    }
    findings.report(rt)
}

// How many answers were asked for, and how many of them agree.
#[derive(Clone, Copy)]
struct Tally {
    asked: u64,
    agreed: u64,
}

impl Tally {
    const NONE: Tally = Tally {
        asked: 0,
        agreed: 0,
    };

    fn count(&mut self, agrees: bool) {
        self.asked = self.asked.wrapping_add(1);
        self.agreed = self.agreed.wrapping_add(u64::from(agrees));
    }

    // "NAME: AGREED of ASKED agree", where any were asked.
    fn print<N: fmt::Display + Drop>(&self, rt: &impl Print, name: N) -> io::Result<()> {
        let Tally { asked, agreed } = *self;
        if asked == 0 {
            return Ok(());
        }
        println!(rt; "{name}: {agreed} of {asked} agree")
    }
}

// What has been found so far, and the tables that streams are scored by.
#[derive(Drop)]
struct Findings {
    // The functions', in the order of their numbers. No map: there is no heap.
    tallies: [Tally; FUNCTIONS],
    // That of answers of other functions, and of lists that are malformed.
    unknown: Tally,
    tables: StreamTables,
}

impl Findings {
    fn new() -> Findings {
        let mut tables = StreamTables::new();
        stream_profile::fill_tables(&mut tables);
        Findings {
            tallies: [Tally::NONE; FUNCTIONS],
            unknown: Tally::NONE,
            tables,
        }
    }

    // Replays the file of that name. One that cannot be opened, or whose name is not UTF-8, is told on standard error, and
    // left out.
    fn file<R: Files + Eprint>(&mut self, rt: &R, bytes: &[u8]) -> io::Result<()> {
        let Ok(name) = std::str::from_utf8(bytes) else {
            return eprintln!(rt; "a name is not UTF-8");
        };
        let mut file = match fs::open(rt, name) {
            Ok(file) => file,
            Err(e) => return eprintln!(rt; "{name}: {e}"),
        };
        let mut words = [0u64; ANSWER];
        self.list(&mut file, &mut words)
    }

    // Replays the answers of a list to its end. A list that ends within an answer counts as one that differs.
    fn list<R: Read>(&mut self, reader: &mut R, words: &mut [u64]) -> io::Result<()> {
        for _ in 0..ANSWERS {
            match answer_list::read_answer(reader, words) {
                Ok(Some(answer)) => self.answer(answer.function, &words[..answer.count]),
                Ok(None) => return Ok(()),
                Err(ReadError::Malformed) => {
                    self.unknown.count(false);
                    return Ok(());
                }
                Err(ReadError::Io(e)) => return Err(e),
            }
        }
        Ok(())
    }

    // Counts an answer of the function of that number.
    fn answer(&mut self, number: u64, words: &[u64]) {
        match Function::try_from(number) {
            Ok(function) => {
                let agrees = self.agrees(function, words);
                self.tallies[place_of(function)].count(agrees);
            }
            Err(_) => self.unknown.count(false),
        }
    }

    // Whether the library's results are those of the answer.
    fn agrees(&self, function: Function, words: &[u64]) -> bool {
        match function {
            Function::RegionProgram => replay_stream::stream(Form::Listing, words, &self.tables),
            Function::Sheet => {
                replay_stream::stream(Form::Sheet { rows: 0 }, words, &self.tables)
            }
            Function::Add | Function::Pop | Function::Run => replay_profile::agrees(
                function, words,
            ),
            Function::ClipCount
            | Function::Score
            | Function::PairSum
            | Function::Log10Sum
            | Function::SetScore => replay_scoring::agrees(function, words),
            _ => replay_making::agrees(function, words),
        }
    }

    // A line for each function that the lists had.
    fn report(&self, rt: &impl Print) -> io::Result<()> {
        for (function, tally) in Function::ALL.iter().zip(&self.tallies) {
            tally.print(rt, *function)?;
        }
        self.unknown.print(rt, "unknown or malformed")
    }
}

// The place of a function's tally: that of the function in `Function::ALL`.
fn place_of(function: Function) -> usize
    ensures { result + 1 ≡ function_number function }
{
    function as usize - 1
}
