// ln_gamma.
ghost use Rattle.std.specs.Prelude.{◌≡◌};
ghost use Rattle.elementary.specs.LnGamma.{shifted, correction, stirling, ln_gamma_of};

use crate::Shifted;
use crate::logarithm::ln;

// No x above 0 needs more turns than this to come to 16.
const MAX_SHIFTS: u32 = 16;

// The logarithm of the gamma function: infinity at 0 and at infinity, and NaN below 0 and at NaN.
pub fn ln_gamma(x: f64) -> f64
    ensures { result ≡ ln_gamma_of x }
{
    if 0.0 < x {
        if x < f64::INFINITY {
            return stirling_at(shift(x));
        }
        return f64::INFINITY;
    }
    if x == 0.0 {
        return f64::INFINITY;
    }
    f64::NAN
}

// "c = 0, while x < 16 add ln x to c and 1 to x": a loop of its own, as at logarithm's scale_down.
fn shift(from: f64) -> Shifted
    ensures { result ≡ shifted from }
{
    let mut x = from;
    let mut c = 0.0;
    for _ in 0..MAX_SHIFTS {
        if !(x < 16.0) {
            return Shifted { x, c };
        }
        c += ln(x);
        x += 1.0;
    }
    Shifted { x, c }
}

// "a = 1/1260 − v/1680, b = 1/360 − v × a, d = 1/12 − v × b"
#[tactic(auto, unfolding(crate::specs::LnGamma::correction))]
fn correction_at(v: f64) -> f64
    ensures { result ≡ correction v }
{
    let a = 1.0 / 1260.0 - v / 1680.0;
    let b = 1.0 / 360.0 - v * a;
    1.0 / 12.0 - v * b
}

// "((((x − 0.5) × ln x − x) + 0.91893853320467274178) + r × d) − c"
#[tactic(auto, unfolding(crate::specs::LnGamma::stirling))]
fn stirling_at(s: Shifted) -> f64
    ensures { result ≡ stirling s }
{
    let x = s.x;
    let r = 1.0 / x;
    let d = correction_at(r * r);
    (((x - 0.5) * ln(x) - x) + 0.91893853320467274178) + r * d - s.c
}
