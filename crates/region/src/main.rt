// The region program: document 01's chapter of that name. It reads words from standard input and writes a line for each
// region to standard output. sheet differs in the form alone: they are two programs, each with its own name and its own runs
// in the gate, and what they share is region_main::run.
#![tactic(auto)]

use region_print::Form;
use std::io;

fn main(rt: HostRuntime) -> io::Result<()> {
    region_main::run(&rt, Form::Listing)
}
