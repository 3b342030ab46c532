// Laws on doubles: their order, exact products, and loops over doubles that end. The crate has no code: its specs are its contents.
#![tactic(auto)]
