// What scoring hands ln and ln_gamma within document 01's ranges: finite numbers above 0 alone, so that document 01's
// own steps are what runs. The crate has no code: its laws are its contents.
#![tactic(auto)]
