// ln and log10.
ghost use Rattle.std.specs.Prelude.{◌≡◌, ◌≤◌};
ghost use Rattle.lists.specs.Loops.{down, until};
ghost use Rattle.elementary.specs.Ln.{double, from1, max_scalings, halved, ln_term, first, ln_scaled, ln_of, log10_of};

use crate::Scaled;

// No finite double needs more halvings or doublings than this.
const MAX_SCALINGS: u32 = 1074;

// The natural logarithm: minus infinity at 0, infinity at infinity, and NaN below 0 and at NaN.
pub fn ln(y: f64) -> f64
    ensures { result ≡ ln_of y }
{
    if 0.0 < y {
        if y < f64::INFINITY {
            return ln_scaled(scale_up(scale_down(y)));
        }
        return f64::INFINITY;
    }
    if y == 0.0 {
        return f64::NEG_INFINITY;
    }
    f64::NAN
}

// The log10 of e, by which ln becomes log10.
pub const LOG10_E: f64 = 0.4342944819032518;

// The logarithm to the base 10.
#[tactic(auto, unfolding(crate::specs::Ln::log10_of))]
pub fn log10(x: f64) -> f64
    ensures { result ≡ log10_of x }
{
    ln(x) * LOG10_E
}

// y halved until it is below 2. This loop, scale_up's and gamma's shift are three and no one function of `until`: each counts
// into another field and ends otherwise, and one function of them would take closures as long as the loops.
fn scale_down(y: f64) -> Scaled
    ensures { (result ≡ halved y) × (result.halvings ≤ 1074) × (result.doublings ≡ 0) }
{
    let mut m = y;
    for halvings in 0..MAX_SCALINGS {
        if m < 2.0 {
            return Scaled {
                m,
                halvings,
                doublings: 0,
            };
        }
        m *= 0.5;
    }
    Scaled {
        m,
        halvings: MAX_SCALINGS,
        doublings: 0,
    }
}

// s doubled until it is 1 at least: a loop of its own, as at scale_down.
fn scale_up(s: Scaled) -> Scaled
    requires { s.doublings ≡ 0 }
    ensures { result ≡ until from1 double max_scalings s }
{
    let mut m = s.m;
    let halvings = s.halvings;
    for doublings in 0..MAX_SCALINGS {
        if !(m < 1.0) {
            return Scaled {
                m,
                halvings,
                doublings,
            };
        }
        m *= 2.0;
    }
    Scaled {
        m,
        halvings,
        doublings: MAX_SCALINGS,
    }
}

// "z = (m − 1)/(m + 1) .. k × 0.6931471805599453 + 2 × (z × s)"
#[tactic(auto, unfolding(crate::specs::Ln::ln_scaled))]
fn ln_scaled(c: Scaled) -> f64
    ensures { result ≡ ln_scaled c }
{
    let z = (c.m - 1.0) / (c.m + 1.0);
    let s = series(z * z);
    let halvings = c.halvings;
    let doublings = c.doublings;
    let k = f64::from(halvings) - f64::from(doublings);
    k * 0.6931471805599453 + 2.0 * (z * s)
}

// "s = 1/35, for j = 33, 31 .. 1 s = 1/j + u × s"
fn series(u: f64) -> f64
    ensures { result ≡ down (ln_term u) 17 first }
{
    let mut s = 1.0 / 35.0;
    for i in (1..=17u32).rev() {
        let j = 2 * i - 1;
        s = 1.0 / f64::from(j) + u * s;
    }
    s
}
