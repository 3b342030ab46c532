// The region program, printed as a sheet for the field binder: document 02, U1. It reads words from standard input and
// writes a row for each region to standard output, 60 rows a page. region differs in the form alone, and says why they are two.
#![tactic(auto)]

use region_print::Form;
use std::io;

fn main(rt: HostRuntime) -> io::Result<()> {
    region_main::run(&rt, Form::Sheet { rows: 0 })
}
