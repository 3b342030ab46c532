// Document 01, 'Popping', and the peak of document 02, U2. No public function has a `requires`.
#![tactic(auto)]

ghost use Rattle.std.specs.Prelude.{◌≡◌, ◌+◌, ◌-◌, ◌≤◌, ◌<◌, length, Ok};
ghost use Rattle.lists.specs.Each.{each};
ghost use Rattle.activity_profile.specs.Verdict.{granted, verdict_of};
ghost use Rattle.activity_profile.specs.Pop.{kept, region_with, rest, pop_verdict, turn, ready, too_few};
ghost use Rattle.activity_profile.specs.Pop.{pop_answer_of, pop_answer_by, pop_cells_by, pop_answer, pop_cells};
ghost use Rattle.activity_profile.specs.Pop.{qualifies, beats, best_cut_site, or_most, size_of, moved_cell};

use activity_profile::{ActivityProfileRegion, BandPassActivityProfile, Popped, RefusedCall};
use genome::Refusal;
use numbers::{lesser, monus};
use profile_record::is_broken;
use region_cells::{find_first_activity_boundary, peak_index};

// Pops the next region that is ready, from the cells that are lent with the record. Refuses a broken record, then a region size of 0.
#[tactic(auto, using(std::proofs::lemmas::Bool::Decides::nat_tests), unfolding(activity_profile::specs::Pop::pop_answer, activity_profile::specs::Pop::pop_cells, activity_profile::specs::Pop::turn, activity_profile::specs::Pop::pop_answer_by, activity_profile::specs::Pop::pop_cells_by))]
pub fn try_pop_next_ready_region(
    p: BandPassActivityProfile,
    cells: &mut [f64],
    assembly_region_extension: u32,
    min_region_size: u32,
    max_region_size: u32,
    force_conversion: bool,
) -> Result<Popped, RefusedCall>
    ensures result_value { pop_answer_of result
        ≡ pop_answer p cells.old assembly_region_extension min_region_size max_region_size
        force_conversion }
    ensures cells_after { cells.new
        ≡ pop_cells p cells.old min_region_size max_region_size force_conversion }
{
    pop_verdict(p, cells.len(), min_region_size, max_region_size).map_err(|refusal| RefusedCall {
        refusal,
        profile: p,
    })?;
    if p.count == 0 {
        return Ok(Popped::Empty(p));
    }
    if is_held(p, max_region_size, force_conversion) {
        return Ok(Popped::Held(p));
    }
    Ok(pop_ready(
        p,
        cells,
        assembly_region_extension,
        min_region_size,
        max_region_size,
        force_conversion,
    ))
}

// The functions below call the sizes `least` and `most`, as the definitions do, and the public one has the Rust's names. Extension, sizes
// and force are arguments: a struct of them would be made in the public function alone, and no contract would be shorter by it.

// The first refusal that applies to a pop, in document 01's order, with so many cells lent.
#[tactic(auto, using(std::proofs::lemmas::Bool::Decides::nat_tests), unfolding(activity_profile::specs::Pop::pop_verdict))]
fn pop_verdict(
    p: BandPassActivityProfile,
    cells: usize,
    least: u32,
    most: u32,
) -> Result<(), Refusal>
    ensures { verdict_of result ≡ pop_verdict p cells least most }
{
    if is_broken(p, cells) {
        return Err(Refusal::BrokenProfile);
    }
    if (least == 0) | (most == 0) {
        return Err(Refusal::ZeroSize);
    }
    Ok(())
}

// Whether an unforced pop has too few cells: the count is below max + D.
fn is_held(p: BandPassActivityProfile, most: u32, forced: bool) -> bool
    ensures { result ≡ too_few p most forced }
{
    let d = u64::from(p.max_prob_propagation_distance) + u64::from(p.filter_size);
    !forced & (u64::from(p.count) < u64::from(most) + d)
}

// The pop that answers a region.
fn pop_ready(
    p: BandPassActivityProfile,
    cells: &mut [f64],
    extension: u32,
    least: u32,
    most: u32,
    forced: bool,
) -> Popped
    requires { (pop_verdict p (length cells.old) least most ≡ granted) × (turn p most forced ≡ ready) }
    ensures result_value { pop_answer_of (Ok result) ≡ pop_answer_by granted ready p cells.old extension least most forced }
    ensures cells_after { cells.new ≡ pop_cells_by granted ready p cells.old least most forced }
{
    let keep = kept_cells(p, forced);
    let active = cells[0] > p.active_prob_threshold;
    let size = region_size(
        &cells[..keep],
        p.active_prob_threshold,
        least as usize,
        most as usize,
    );
    let left = keep - size;
    let index = peak_index(&cells[..size]);
    let region = region_with(p, active, size, extension, index, cells[index]);
    let next = rest_of(p, size, left);
    move_to_front(cells, size, left, p.count as usize);
    Popped::Ready(region, next)
}

// How many cells a pop looks at: a forced one keeps max(last - start, 0) + 1 at most, so that no locus past the last input is handed out.
#[tactic(auto, unfolding(activity_profile::specs::Pop::kept))]
fn kept_cells(p: BandPassActivityProfile, forced: bool) -> usize
    ensures { result ≡ kept p forced }
{
    if forced {
        let reach = monus(u64::from(p.last_input_pos), u64::from(p.region_start)) + 1;
        return lesser(u64::from(p.count), reach) as usize;
    }
    p.count as usize
}

// The region of `size` loci, its padding clamped to 1 and the contig length, with its peak, the cell at this index.
#[tactic(auto, unfolding(activity_profile::specs::Pop::region_with))]
fn region_with(
    p: BandPassActivityProfile,
    active: bool,
    size: usize,
    extension: u32,
    index: usize,
    peak: f64,
) -> ActivityProfileRegion
    requires { (1 ≤ p.region_start)
        × (1 ≤ size)
        × (index < size)
        × (p.region_start + size - 1 ≤ p.contig_len) }
    ensures { result ≡ region_with p active size extension index peak }
{
    let end = position_at(p.region_start, size - 1);
    ActivityProfileRegion {
        contig: p.contig,
        start: p.region_start,
        end,
        is_active: active,
        padded_start: p.region_start.saturating_sub(extension).max(1),
        padded_end: end.saturating_add(extension).min(p.contig_len),
        extension,
        peak,
        peak_pos: position_at(p.region_start, index),
    }
}

// The position of a cell: "cell i is the activity at region start + i".
fn position_at(region_start: u32, i: usize) -> u32
    requires { region_start + i < 4294967296 }
    ensures { result ≡ region_start + i }
{
    region_start + i as u32
}

// The record once the region is gone and `left` cells are left.
#[tactic(auto, using(std::proofs::lemmas::Bool::Decides::nat_tests), unfolding(activity_profile::specs::Pop::rest))]
fn rest_of(p: BandPassActivityProfile, size: usize, left: usize) -> BandPassActivityProfile
    requires { (1 ≤ p.region_start)
        × (size + left ≤ p.count)
        × (p.region_start + p.count - 1 ≤ p.contig_len) }
    ensures { result ≡ rest p size left }
{
    if left == 0 {
        return BandPassActivityProfile {
            region_start: 0,
            last_input_pos: 0,
            count: 0,
            ..p
        };
    }
    BandPassActivityProfile {
        region_start: position_at(p.region_start, size),
        count: left as u32,
        ..p
    }
}

// ---- the size of a region, and the move of the cells that are left

// How many of the cells kept make the region.
#[tactic(auto, using(std::proofs::lemmas::Bool::Decides::nat_tests), unfolding(activity_profile::specs::Pop::size_of))]
fn region_size(states: &[f64], threshold: f64, least: usize, most: usize) -> usize
    requires { (1 ≤ length states.now) × (1 ≤ least) }
    ensures { result ≡ size_of threshold states.now least most }
{
    let active = states[0] > threshold;
    let end = find_first_activity_boundary(states, threshold, active, most);
    if active & (end == most) {
        return find_best_cut_site(states, least, most);
    }
    end
}

// The size of an active region that reached max: from index max - 1 down to min - 1, the smallest minimum, the higher index on ties, which
// stays inside; max where there is none. The best so far is a size, 0 for none as the definition has it, and no f64::MAX as in the Rust. No
// Option: with it the search is slower (docs/SPEED.md, 'Forms that are slower').
fn find_best_cut_site(states: &[f64], least: usize, most: usize) -> usize
    requires { (1 ≤ least) × (most ≤ length states.now) }
    ensures { result ≡ or_most most (best_cut_site states.now least most) }
{
    let mut best = 0;
    for i in (least - 1..most).rev() {
        if is_better(states, i, best) {
            best = i + 1;
        }
    }
    if best == 0 {
        return most;
    }
    best
}

// Whether the cell at `index` lies below the last cell of the best size so far, 0 being none, and is a minimum.
#[tactic(auto, using(std::proofs::lemmas::Bool::Decides::nat_tests), unfolding(activity_profile::specs::Pop::beats))]
fn is_better(states: &[f64], index: usize, best: usize) -> bool
    requires { (index < length states.now) × (best ≤ length states.now) }
    ensures { result ≡ beats states.now index best }
{
    if best == 0 {
        return is_minimum(states, index);
    }
    let lower = states[index] < states[best - 1];
    lower & is_minimum(states, index)
}

// Whether the cell is neither first nor last held, at most its right neighbour and strictly below its left. Its neighbours
// are compared without a branch between them, which nothing foretells on rough cells.
#[tactic(auto, using(std::proofs::lemmas::Bool::Decides::nat_tests), unfolding(activity_profile::specs::Pop::qualifies))]
fn is_minimum(states: &[f64], index: usize) -> bool
    requires { index < length states.now }
    ensures { result ≡ qualifies states.now index }
{
    0 < index
        && index + 1 < states.len()
        && (states[index] <= states[index + 1]) & (states[index] < states[index - 1])
}

// Remaining cells move to the front; vacated and trimmed cells become 0.0. Cells past the count are not looked at.
fn move_to_front(cells: &mut [f64], size: usize, left: usize, count: usize)
    requires { (size + left ≤ count) × (count ≤ length cells.old) }
    ensures { cells.new ≡ each (moved_cell cells.old size left count) cells.old }
{
    cells.copy_within(size..size + left, 0);
    cells[left..count].fill(0.0);
}
