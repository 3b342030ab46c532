// Document 01, 'Adding a locus': whether an add is granted, or which refusal it meets, and the cells in use after it. No
// public function has a `requires`.
#![tactic(auto)]

ghost use Rattle.std.specs.Prelude.{◌≡◌, ◌≤◌, ltb};
ghost use Rattle.activity_profile.specs.Add.{first_locus, highest, needed, broken_add, other_contig, off_contig, no_activity};
ghost use Rattle.activity_profile.specs.Add.{not_next, add_verdict};
ghost use Rattle.activity_profile.specs.Verdict.{verdict_of};

use activity_profile::{ActivityProfileState, BandPassActivityProfile};
use genome::Refusal;
use numbers::{greater, lesser, monus};
use profile_record::is_broken;

// The first refusal that applies to an add, in document 01's order, with so many cells and a kernel of so many entries lent.
#[tactic(auto, using(std::proofs::lemmas::Bool::Decides::nat_tests), unfolding(activity_profile::specs::Add::add_verdict))]
pub fn add_verdict(
    p: BandPassActivityProfile,
    state: ActivityProfileState,
    kernel: usize,
    cells: usize,
) -> Result<(), Refusal>
    ensures { verdict_of result ≡ add_verdict p cells kernel state }
{
    if is_broken_add(p, cells, kernel) {
        return Err(Refusal::BrokenProfile);
    }
    if is_other_contig(p, state) {
        return Err(Refusal::Contig);
    }
    if is_off_contig(p, state) {
        return Err(Refusal::OffContig);
    }
    if is_no_activity(state) {
        return Err(Refusal::Activity);
    }
    if is_not_next(p, state) {
        return Err(Refusal::NotNext);
    }
    if lacks_cells(p, state, cells) {
        return Err(Refusal::Cells);
    }
    Ok(())
}

// The functions below take the record and the state as two arguments, as the public ones do: a struct of both would be made by each
// caller and taken apart at each field.

// Refusal 5 of an add: the record is broken, or the kernel is not 2F + 1 long.
fn is_broken_add(p: BandPassActivityProfile, cells: usize, kernel: usize) -> bool
    ensures { result ≡ broken_add p cells kernel }
{
    let broken = is_broken(p, cells);
    broken | (kernel as u64 != 2 * u64::from(p.filter_size) + 1)
}

// Refusal 6.
fn is_other_contig(p: BandPassActivityProfile, s: ActivityProfileState) -> bool
    ensures { result ≡ other_contig p s }
{
    s.contig != p.contig
}

// Refusal 7.
fn is_off_contig(p: BandPassActivityProfile, s: ActivityProfileState) -> bool
    ensures { result ≡ off_contig p s }
{
    (s.pos.0 == 0) | (p.contig_len < s.pos.0)
}

// Refusal 8. A NaN is no probability.
fn is_no_activity(s: ActivityProfileState) -> bool
    ensures { result ≡ no_activity s }
{
    !numbers::within_f64(0.0, s.active_prob, 1.0)
}

// Refusal 9.
fn is_not_next(p: BandPassActivityProfile, s: ActivityProfileState) -> bool
    ensures { result ≡ not_next p s }
{
    (0 < p.count) & (u64::from(s.pos.0) != u64::from(p.last_input_pos) + 1)
}

// Refusal 10.
fn lacks_cells(p: BandPassActivityProfile, s: ActivityProfileState, cells: usize) -> bool
    ensures { result ≡ ltb cells (needed p s) }
{
    (cells as u64) < cells_after(p, s)
}

// The cells in use after the add.
#[tactic(auto, unfolding(activity_profile::specs::Add::needed))]
pub fn cells_after(p: BandPassActivityProfile, s: ActivityProfileState) -> u64
    ensures { result ≡ needed p s }
{
    let reach = monus(highest_of(p, s), u64::from(first_locus(p, s)));
    greater(u64::from(p.count), reach + 1)
}

// The region start, first set to the locus where the count is 0.
#[tactic(auto, using(std::proofs::lemmas::Bool::Decides::nat_tests), unfolding(activity_profile::specs::Add::first_locus))]
pub fn first_locus(p: BandPassActivityProfile, s: ActivityProfileState) -> u32
    ensures { result ≡ first_locus p s }
{
    if p.count == 0 {
        return s.pos.0;
    }
    p.region_start
}

// The highest position that receives.
#[tactic(auto, unfolding(activity_profile::specs::Add::highest))]
pub fn highest_of(p: BandPassActivityProfile, s: ActivityProfileState) -> u64
    ensures { (result ≡ highest p s) × (result ≤ 4294967295) }
{
    if s.active_prob > 0.0 {
        return lesser(
            u64::from(p.contig_len),
            u64::from(s.pos.0) + u64::from(p.filter_size),
        );
    }
    u64::from(s.pos.0)
}
