// Replays the lists of answers that its arguments name, whatever functions they are of (docs/LISTS.md). Its data are the oracle's
// lists of single calls and of runs of adds and pops; replay_region is the same program over those of the region program. Two
// programs, each with its own stdout in the gate: one over all lists would pass the time that the gate gives a program.
#![tactic(auto)]

use std::io;

fn main(rt: HostRuntime) -> io::Result<()> {
    replay_lists::replay_arguments(&rt)
}
