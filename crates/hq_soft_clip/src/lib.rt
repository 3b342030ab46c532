// The count of high-quality soft-clipped bases: document 01, 'Soft-clip count', after the Rust's hq_soft_clip.rs, with
// the SAM specification's CIGAR operations. No public function has a `requires`.
#![tactic(auto)]

ghost use Rattle.std.specs.Prelude.{◌≡◌, ◌-◌, ◌^◌, ◌≤◌, ◌<◌, min, length};
ghost use Rattle.genome.specs.Refusals.{outcome_of};
ghost use Rattle.hq_soft_clip.specs.SoftClips.{with_base, count_high, passed, clipped, walked, capped, capped_outcome, clip_count};

use genome::{MISSING_QUALITY, Refusal};

// A walk along a read: how many of its bases have been passed, no further than there are qualities, and how many of them were clipped with
// a high quality. Public, since the definitions speak of it. The qualities and the facts of a walk over them stay outside: the definitions
// passed, clipped and walked go over any walk.
#[derive(Clone, Copy)]
pub struct Walk {
    pub at: usize,
    pub count: u64,
}

// A soft-clipped base counts where its quality is strictly above this.
const RCM_HQ_SOFT_CLIP_QUAL_THRESHOLD: u8 = 28;

// How many soft-clipped bases have a quality strictly above 28, over CIGAR words as BAM stores them (length in the high
// 28 bits, operation in the low 4). A missing quality, 255 or none at all, counts as 0. Refuses an operation from 9 on.
// The cost is bounded by the numbers of words and qualities, whatever lengths the words claim.
pub fn count_high_quality_soft_clip_bases_rcm(
    cigar: &[u32],
    qualities: &[u8],
) -> Result<u64, Refusal>
    ensures { outcome_of result ≡ clip_count cigar.now qualities.now }
{
    let mut w = Walk { at: 0, count: 0 };
    for word in cigar {
        w = walk_word(w, *word, qualities)?;
    }
    Ok(w.count)
}

// One word, by the SAM specification's table of CIGAR operations: an arm for each of its rows, in its order, below the row's letter, its
// description and whether it consumes the query.
#[tactic(auto, using(crate::proofs::Walks::stays_capped, std::proofs::lemmas::Bool::Decides::nat_tests), unfolding(crate::specs::SoftClips::by_operation))]
fn walk_word(here: Walk, word: u32, qualities: &[u8]) -> Result<Walk, Refusal>
    requires { (here.count ≤ here.at) × (here.at ≤ length qualities.now) }
    ensures { outcome_of result ≡ capped_outcome (length qualities.now) (walked qualities.now here word) }
{
    // a number, the table's own key: an enum of the operations would be the table a second time
    let operation = word % 16;
    let past = pass(here, (word / 16) as usize, qualities.len());
    match operation {
        // M: alignment match (can be a sequence match or mismatch); consumes query: yes
        0 => Ok(past),
        // I: insertion to the reference; consumes query: yes
        1 => Ok(past),
        // D: deletion from the reference; consumes query: no
        2 => Ok(here),
        // N: skipped region from the reference; consumes query: no
        3 => Ok(here),
        // S: soft clipping (clipped sequences present in SEQ); consumes query: yes
        4 => Ok(clip(here, past.at, qualities)),
        // H: hard clipping (clipped sequences NOT present in SEQ); consumes query: no
        5 => Ok(here),
        // P: padding (silent deletion from padded reference); consumes query: no
        6 => Ok(here),
        // =: sequence match; consumes query: yes
        7 => Ok(past),
        // X: sequence mismatch; consumes query: yes
        8 => Ok(past),
        // 9 to 15: not in the table, refused 3
        _ => Err(Refusal::Word),
    }
}

// The walk past n bases more, no further than there are qualities.
fn pass(w: Walk, n: usize, qualities: usize) -> Walk
    requires { w.at ≤ qualities }
    ensures { result ≡ capped qualities (passed n w) }
{
    Walk {
        at: w.at + n.min(qualities - w.at),
        count: w.count,
    }
}

// The walk past the bases before `end`, which are clipped.
fn clip(w: Walk, end: usize, qualities: &[u8]) -> Walk
    requires { (w.count ≤ w.at) × (w.at ≤ end) × (end ≤ length qualities.now) }
    ensures { result ≡ clipped qualities.now (end - w.at) w }
{
    let at = w.at;
    Walk {
        at: end,
        count: w.count + count_high(&qualities[at..end]),
    }
}

// How many of the qualities are strictly above 28 and not missing. The definition count_high is this fold, and with_base
// its turn. A loop: by `filter` and `count`, which prove, it is slower (docs/SPEED.md, 'Forms that are slower').
fn count_high(qualities: &[u8]) -> u64
    ensures { result ≡ count_high qualities.now }
{
    let mut n = 0u64;
    for quality in qualities {
        n = with_base(n, *quality);
    }
    n
}

// One base more, counted where its quality is high. The missing one, 255, is not. That its count is not the largest number the
// loop knows: it is a count of a slice's bytes.
fn with_base(n: u64, quality: u8) -> u64
    requires { n < 2 ^ 64 - 1 }
    ensures { result ≡ with_base n quality }
{
    if (RCM_HQ_SOFT_CLIP_QUAL_THRESHOLD < quality) & (quality != MISSING_QUALITY) {
        return n + 1;
    }
    n
}
