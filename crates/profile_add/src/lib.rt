// Document 01, 'Adding a locus': the add itself, and what it writes to the cells. No public function has a `requires`.
#![tactic(auto)]

ghost use Rattle.std.specs.Prelude.{◌≡◌, ◌+◌, ◌≤◌, ◌<◌, length};
ghost use Rattle.activity_profile.specs.Verdict.{granted};
ghost use Rattle.lists.specs.Each.{each};
ghost use Rattle.activity_profile.specs.Add.{at, times, weight, super_states, first_locus, lowest, highest, needed, add_verdict};
ghost use Rattle.activity_profile.specs.Add.{added_profile};
ghost use Rattle.activity_profile.specs.Add.{add_answer_of, add_answer_by, add_cells_by, add_answer, add_cells};
ghost use Rattle.activity_profile.specs.Window.{receiving, lo, hi, off, held};

use activity_profile::{
    ActivityEvidence, ActivityProfileState, BandPassActivityProfile, RefusedCall,
};
use add_verdict::{add_verdict, cells_after, first_locus, highest_of};
use numbers::{greater, lesser, monus};

// Adds the next locus to the profile, and what it spreads to the lent cells. The kernel is the one that the profile was made with, 2F + 1
// long. Each refusal, in document 01's order, leaves the cells as they were.
#[tactic(auto, unfolding(activity_profile::specs::Add::add_answer, activity_profile::specs::Add::add_cells, activity_profile::specs::Add::add_answer_by, activity_profile::specs::Add::add_cells_by))]
pub fn add(
    p: BandPassActivityProfile,
    state: ActivityProfileState,
    kernel: &[f64],
    cells: &mut [f64],
) -> Result<BandPassActivityProfile, RefusedCall>
    ensures result_value { add_answer_of result ≡ add_answer p cells.old kernel.now state }
    ensures cells_after { cells.new ≡ add_cells p cells.old kernel.now state }
{
    add_verdict(p, state, kernel.len(), cells.len()).map_err(|refusal| RefusedCall {
        refusal,
        profile: p,
    })?;
    Ok(add_granted(p, state, kernel, cells))
}

// The functions below take the record and the state as two arguments, as `add` does: a struct of both would be made there and taken
// apart at each field.

// The add that is accepted: only the window's cells are lent on and written.
fn add_granted(
    p: BandPassActivityProfile,
    s: ActivityProfileState,
    kernel: &[f64],
    cells: &mut [f64],
) -> BandPassActivityProfile
    requires { add_verdict p (length cells.old) (length kernel.now) s ≡ granted }
    ensures result_value { result ≡ added_profile p s }
    ensures cells_after { cells.new ≡ add_cells_by granted p cells.old kernel.now s }
{
    let m = super_states(p, s);
    let w = window_of(p, s);
    spread(&mut cells[w.lo..w.hi], &kernel[w.off..], s, m, w.held);
    added_profile(p, s)
}

// The number of super states: 1 for plain evidence; for clips, how many offsets d from -n to n, n the smaller of the clip count and D, have
// p + d on the contig.
fn super_states(p: BandPassActivityProfile, s: ActivityProfileState) -> u64
    requires { (1 ≤ at s) × (at s ≤ p.contig_len) }
    ensures { result ≡ super_states p (at s) s.evidence }
{
    match s.evidence {
        ActivityEvidence::Plain => 1,
        ActivityEvidence::HighQualitySoftClips { clip_bases } => {
            let d = u64::from(p.max_prob_propagation_distance) + u64::from(p.filter_size);
            let n = lesser(u64::from(clip_bases), d);
            let q = u64::from(s.pos.0);
            let low = greater(1, monus(q, n));
            let high = lesser(u64::from(p.contig_len), q + n);
            high - low + 1
        }
    }
}

// The record after an accepted add.
#[tactic(auto, unfolding(activity_profile::specs::Add::added_profile))]
fn added_profile(p: BandPassActivityProfile, s: ActivityProfileState) -> BandPassActivityProfile
    requires { needed p s ≤ p.contig_len }
    ensures { result ≡ added_profile p s }
{
    BandPassActivityProfile {
        region_start: first_locus(p, s),
        last_input_pos: s.pos.0,
        count: cells_after(p, s) as u32,
        ..p
    }
}

// ---- the window

// The stretch of the cells that receives, from lo up to hi, the kernel's entry at its front, and how many of its cells are held.
#[derive(Clone, Copy)]
struct Window {
    lo: usize,
    hi: usize,
    off: usize,
    held: usize,
}

fn window_of(p: BandPassActivityProfile, s: ActivityProfileState) -> Window
    requires { (first_locus p s ≤ at s)
        × (lowest p s ≤ at s)
        × (at s ≤ lowest p s + p.filter_size)
        × (at s ≤ highest p s) }
    ensures { (result.lo ≡ lo p s) × (result.hi ≡ hi p s) × (result.off ≡ off p s) × (result.held ≡ held p s) }
{
    let first = u64::from(first_locus(p, s));
    let lo = monus(lowest_of(p, s), first);
    let hi = highest_of(p, s) - first + 1;
    let off = first + lo + u64::from(p.filter_size) - u64::from(s.pos.0);
    let held = monus(u64::from(p.count), lo);
    Window {
        lo: lo as usize,
        hi: hi as usize,
        off: off as usize,
        held: held as usize,
    }
}

// The lowest position that receives.
#[tactic(auto, unfolding(activity_profile::specs::Add::lowest))]
fn lowest_of(p: BandPassActivityProfile, s: ActivityProfileState) -> u64
    ensures { result ≡ lowest p s }
{
    let q = u64::from(s.pos.0);
    if s.active_prob > 0.0 {
        return greater(1, monus(q, u64::from(p.filter_size)));
    }
    q
}

// ---- what its cells receive

// Each cell of the window receives its sum, from the kernel's front on: by one addition in the first `held` cells; from there on
// the sum becomes the next new cell, whatever it held. Two loops, so that neither tests at each cell whether it is held. No zip
// with the kernel: a proof knows nothing of what a zip over `iter_mut` writes.
fn spread(window: &mut [f64], kernel: &[f64], s: ActivityProfileState, m: u64, held: usize)
    requires { length window.old ≤ length kernel.now }
    ensures { window.new ≡ each (receiving kernel.now s m held) window.old }
{
    let n = held.min(window.len());
    let (front, back) = window.split_at_mut(n);
    for (j, x) in front.iter_mut().enumerate() {
        *x += times_of(m, weight_of(kernel, s, j));
    }
    for (k, x) in back.iter_mut().enumerate() {
        *x = times_of(m, weight_of(kernel, s, n + k));
    }
}

// probability × kernel[j]; or a probability that is not above 0, itself.
#[tactic(auto, unfolding(activity_profile::specs::Add::weight))]
fn weight_of(kernel: &[f64], s: ActivityProfileState, j: usize) -> f64
    requires { j < length kernel.now }
    ensures { result ≡ weight kernel.now s j }
{
    if s.active_prob > 0.0 {
        return s.active_prob * kernel[j];
    }
    s.active_prob
}

// w, added to itself m - 1 times, left to right.
fn times_of(m: u64, w: f64) -> f64
    ensures { result ≡ times m w }
{
    (1..m).fold(w, |sum, _| sum + w)
}
