// Observations: one kept in the lent pile, and a run of them taken at once. No public function has a `requires`.
#![tactic(auto)]

ghost use Rattle.std.specs.Prelude.{◌≡◌, ◌≤◌, length};
ghost use Rattle.std.specs.List.{prefix_len};
ghost use Rattle.pileup_words.specs.Words.{is_observation};
ghost use Rattle.region_program.specs.declared.Phase.TheVariants.{Pile};
ghost use Rattle.region_program.specs.Run.{kept_more, kept_all, run_at, Taken};

use pileup_words::PileupObservation;
use region_program::{Observed, OpenPile, PILE, Phase, RegionStream};

// Takes all the observations at the front of these words into the pile that is open, as acting on each of them would,
// however piles are scored. Takes none where no pile is open.
pub fn observations(s: RegionStream, words: &[u32], pile: &mut [u32; PILE]) -> Observed
    ensures { Taken s words.now pile.old pile.new result }
{
    match s.phase {
        Phase::Pile(at) => take_run(s, at, words, pile),
        Phase::Settings | Phase::Loci => Observed {
            stream: s,
            taken: 0,
        },
    }
}

fn take_run(s: RegionStream, at: OpenPile, words: &[u32], pile: &mut [u32; PILE]) -> Observed
    requires { s.phase ≡ Pile at }
    ensures { Taken s words.now pile.old pile.new result }
{
    let taken = run_length(words);
    let depth = keep_all(pile, at.depth, &words[..taken]);
    run_of(s, at, depth, taken)
}

// How many observations stand at the front.
fn run_length(words: &[u32]) -> usize
    ensures few { result ≤ length words.now }
    ensures all { result ≡ prefix_len is_observation words.now }
{
    words
        .iter()
        .take_while(|w| PileupObservation::is_word(**w))
        .count()
}

// The pile with all of the words behind those that it keeps, as far as there is room. Answers how many it keeps. One by one,
// and not copied as a slice: what `keep` promises of a pile that is full is said of all of them by that alone.
fn keep_all(pile: &mut [u32], kept: usize, words: &[u32]) -> usize
    ensures value { result ≡ (kept_all kept pile.old words.now).depth }
    ensures pile_after { pile.new ≡ (kept_all kept pile.old words.now).pile }
{
    let mut n = kept;
    for w in words {
        n = keep(pile, n, *w);
    }
    n
}

// The pile with one word more, where there is room. Answers how many it keeps: the pile is an array with its depth beside
// it, since there is no heap, and `kept_more` is of both.
pub fn keep(pile: &mut [u32], kept: usize, w: u32) -> usize
    ensures value { result ≡ (kept_more (record { depth = kept; pile = pile.old }) w).depth }
    ensures pile_after { pile.new ≡ (kept_more (record { depth = kept; pile = pile.old }) w).pile }
{
    if kept < pile.len() {
        pile[kept] = w;
        return kept + 1;
    }
    kept
}

// The stream after so many observations, of which so many words are kept.
fn run_of(s: RegionStream, at: OpenPile, depth: usize, taken: usize) -> Observed
    ensures { result ≡ record { stream = run_at s at.locus at.locus_index depth taken; taken = taken } }
{
    let phase = Phase::Pile(OpenPile { depth, ..at });
    let index = s.index.wrapping_add(taken as u64);
    let stream = RegionStream { phase, index, ..s };
    Observed { stream, taken }
}
