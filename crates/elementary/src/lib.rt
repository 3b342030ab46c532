// Document 01's elementary functions, 'Elementary functions, in both programs': exp, ln, log10, 10 to x and ln_gamma.
//
// Each is equal, bit for bit, to a definition of `specs/` whose steps are document 01's in their order, for every
// double. No public function has a `requires`. What ln and ln_gamma answer where document 01 gives them no value is
// said by their definitions.
#![tactic(auto)]

mod exponential;
mod gamma;
mod logarithm;

pub use exponential::{exp, ten_to};
pub use gamma::ln_gamma;
pub use logarithm::{LOG10_E, ln, log10};

// A number on its way to 1 ≤ m < 2: y × 2 to the doublings is m × 2 to the halvings. Public, since the definitions speak of it.
#[derive(Clone, Copy)]
pub struct Scaled {
    pub m: f64,
    pub halvings: u32,
    pub doublings: u32,
}

// ln_gamma's x on its way to 16, with the sum c of the logarithms passed. Public as well.
#[derive(Clone, Copy)]
pub struct Shifted {
    pub x: f64,
    pub c: f64,
}
