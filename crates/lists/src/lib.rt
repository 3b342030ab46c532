// Laws of loops and of lists that the proofs of the other crates cite. The crate has no code: its specs are its contents.
#![tactic(auto)]
