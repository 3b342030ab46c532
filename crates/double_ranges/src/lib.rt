// Laws on doubles of any sign: their order, their sign and their size. The crate has no code: its specs are its contents.
#![tactic(auto)]
