// exp and 10 to x.
ghost use Rattle.std.specs.Prelude.{◌≡◌};
ghost use Rattle.lists.specs.Loops.{down};
ghost use Rattle.doubles.specs.Constants.{one_f};
ghost use Rattle.elementary.specs.Exp.{exp_term, square, exp_of, ten_to_of};

// e to the power x: 0.0 below -700, else the series at x/1024, squared ten times.
#[tactic(auto, unfolding(crate::specs::Exp::exp_of))]
pub fn exp(x: f64) -> f64
    ensures { result ≡ exp_of x }
{
    if x < -700.0 {
        return 0.0;
    }
    squared(series(x / 1024.0))
}

// 10 to the power x.
#[tactic(auto, unfolding(crate::specs::Exp::ten_to_of))]
pub fn ten_to(x: f64) -> f64
    ensures { result ≡ ten_to_of x }
{
    exp(x * 2.302585092994046)
}

// "s = 1, for k = 18 down to 1 s = 1 + (t × s)/k"
fn series(t: f64) -> f64
    ensures { result ≡ down (exp_term t) 18 one_f }
{
    let mut s = 1.0;
    for k in (1..=18u32).rev() {
        s = 1.0 + (t * s) / f64::from(k);
    }
    s
}

// "then s × s ten times"
fn squared(x: f64) -> f64
    ensures { result ≡ down square 10 x }
{
    let mut s = x;
    for _ in 0..10u32 {
        s *= s;
    }
    s
}
