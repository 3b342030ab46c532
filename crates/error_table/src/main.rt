// The generator of the error table: document 02, U7. It writes the bit pattern of each error probability to standard
// output, in decimal, one a line, quality 0 first. It goes by document 01's steps, and not by the constants of the
// table.
#![tactic(auto)]

ghost use Rattle.std.specs.Prelude.{◌≡◌, ◌<◌};
ghost use Rattle.genome.specs.Ranges.{missing_quality};
ghost use Rattle.error_probabilities.specs.Table.{pattern_of};

use genome::MISSING_QUALITY;
use std::io;

// A write that fails is an error, and nothing is written behind it.
fn main(rt: HostRuntime) -> io::Result<()> {
    for qual in 0..MISSING_QUALITY {
        write_line(&rt, pattern_of(qual))?;
    }
    Ok(())
}

// The pattern of the double that the steps come to: the table's entry.
fn pattern_of(qual: u8) -> u64
    requires { qual < missing_quality }
    ensures { result ≡ pattern_of qual }
{
    f64::to_bits(error_probabilities::error_probability_by_steps(qual))
}

// Writes a number and a line feed.
fn write_line(rt: &impl Print, n: u64) -> io::Result<()> {
    println!(rt; "{n}")
}
