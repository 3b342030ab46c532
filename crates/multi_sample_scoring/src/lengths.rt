// The lengths of a set's piles, without its words.
ghost use Rattle.std.specs.Prelude.{◌≡◌, ltb};
ghost use Rattle.activity_scoring.specs.Score.{max_depth};
ghost use Rattle.multi_sample_scoring.specs.Sets.{any_too_deep};

use activity_scoring::MAX_DEPTH;

// Whether any pile has too many words. A fold, which takes no branch for a length: by `any`, a set of many piles is slower
// (docs/SPEED.md, 'Forms that are slower').
pub(crate) fn is_any_too_deep(lengths: &[u32]) -> bool
    ensures { result ≡ any_too_deep lengths.now }
{
    lengths.iter().fold(false, |any, n| any | is_too_deep(*n))
}

fn is_too_deep(n: u32) -> bool
    ensures { result ≡ ltb max_depth n }
{
    n as usize > MAX_DEPTH
}
