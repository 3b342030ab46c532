// PL rounding: likelihoods to whole numbers on the phred scale, and back.
ghost use Rattle.std.specs.Prelude.{◌≡◌};
ghost use Rattle.std.specs.Float.Ieee.{to_unsigned};
ghost use Rattle.lists.specs.Each.{each};
ghost use Rattle.genotype_posterior.specs.Phred.{max_f, min_f, adjust, pl_of, round_trip, pl_round_trip};

// Rounds every likelihood, counted from the largest, to a whole PL and back.
#[tactic(auto, unfolding(crate::specs::Phred::pl_round_trip))]
pub fn genotype_log10_likelihoods_after_java_genotype_pl_roundtrip(gl: &mut [f64])
    ensures { gl.new ≡ pl_round_trip gl.old }
{
    let top = largest(&gl[..]);
    round_all(gl, top);
}

// The largest, from minus infinity on.
fn largest(gl: &[f64]) -> f64
    ensures { result ≡ adjust gl.now }
{
    gl.iter()
        .fold(log10_sums::neg_infinity(), |top, x| max(top, *x))
}

fn round_all(gl: &mut [f64], top: f64)
    ensures { gl.new ≡ each (round_trip top) gl.old }
{
    for x in gl.iter_mut() {
        *x = round_one(*x, top);
    }
}

fn round_one(g: f64, top: f64) -> f64
    ensures { result ≡ round_trip top 0 g }
{
    let pl = pl_of(-10.0 * (g - top));
    f64::from(pl) / -10.0
}

// The PL of a value: capped, then the whole part of the value + 0.5.
#[tactic(auto, unfolding(crate::specs::Phred::pl_of))]
fn pl_of(value: f64) -> u32
    ensures { result ≡ pl_of value }
{
    whole_pl(min(value, 2147483647.0) + 0.5)
}

// The whole part of x, from 0 to 2,147,483,647.
fn whole_pl(x: f64) -> u32
    ensures { result ≡ to_unsigned 31 x }
{
    numbers::as_u64(x).min(2147483647) as u32
}

// Rust's f64::max: of a NaN and a number, the number. By hand, as min below: of two zeros of both signs std's may answer either.
#[tactic(auto, unfolding(crate::specs::Phred::max_f))]
fn max(a: f64, b: f64) -> f64
    ensures { result ≡ max_f a b }
{
    if (a != a) | (a < b) { b } else { a }
}

// Rust's f64::min.
#[tactic(auto, unfolding(crate::specs::Phred::min_f))]
fn min(a: f64, b: f64) -> f64
    ensures { result ≡ min_f a b }
{
    if (a != a) | (b < a) { b } else { a }
}
