// The main of the programs that print a run of the region program: blocks of words are read from standard input, handed
// over, and the text that comes of each is written to standard output, in constant memory. What is printed is
// region_run's. No public function has a `requires`.
#![tactic(auto)]

use region_print::Form;
use region_program::StreamTables;
use region_run::Running;
use standard_io::{BLOCK, Input, WORDS};
use std::io;
use std::io::{Read, Write};

// Runs the program to the end of its input, or to a refusal, and prints it in this form. A read or a write that fails is an
// error, and nothing is written behind it. There is no contract: what standard input brings and what standard output takes
// is outside the logic. For a reader and a writer whose bytes are known, standard_io's clauses say what each block is.
pub fn run<R: io::Input + Print>(rt: &R, form: Form) -> io::Result<()> {
    let mut reader = rt.reader();
    let mut writer = io::writer(rt);
    run_blocks(form, &mut reader, &mut writer)
}

// Reads and feeds block by block; the text that a block brings is written before the next is read. A proved loop has to
// end, and nothing says that an input does: so this one counts its blocks, up to a number that no run uses up.
fn run_blocks<R: Read, W: Write>(form: Form, reader: &mut R, writer: &mut W) -> io::Result<()> {
    let mut bytes = [0; BLOCK];
    let mut words = [0; WORDS];
    let mut tables = StreamTables::new();
    stream_profile::fill_tables(&mut tables);
    let mut running = Running::starting(form, &tables);
    let mut kept = 0;
    for _ in 0..u64::MAX {
        let input = standard_io::read_words(reader, kept, &mut bytes, &mut words)?;
        kept = input.kept();
        turn(&mut running, input, &words, writer)?;
        if running.run.over {
            return Ok(());
        }
    }
    Ok(())
}

// Feeds what a reading brought, or ends the run, and writes the text of it.
fn turn<W: Write>(
    running: &mut Running,
    input: Input,
    words: &[u32; WORDS],
    writer: &mut W,
) -> io::Result<()> {
    match input {
        Input::Words { count, .. } => feed(running, &words[..count.min(WORDS)], writer),
        Input::End { remainder } => {
            running.end(remainder);
            write(running, writer)
        }
    }
}

// Feeds the words of a block, and writes their text as often as it fills its buffer.
fn feed<W: Write>(running: &mut Running, words: &[u32], writer: &mut W) -> io::Result<()> {
    let mut rest = words;
    while !rest.is_empty() {
        rest = running.feed(rest);
        write(running, writer)?;
    }
    Ok(())
}

// Writes the text that waits. A failure ends the run: nothing is written behind it.
fn write<W: Write>(running: &Running, writer: &mut W) -> io::Result<()> {
    standard_io::write_front(writer, &running.text, running.run.used)
}
