// The cells that a maker must provide (document 02, U5).
ghost use Rattle.std.specs.Prelude.{◌≡◌};
ghost use Rattle.genome.specs.Refusals.{outcome_of};
ghost use Rattle.activity_profile.specs.Cells.{sizes_in_range, cells_needed};

use band_pass_kernel::BandPassActivityProfileParams;
use genome::Refusal;

// How many cells are enough, from settings alone, for a maker who after every add pops unforced, with this max region size, until
// "held" or "empty": no add of theirs is refused for want of cells, and with one fewer there are adds that are. The filter
// size is that of the profile's record; max filter in its place is never too little. Refuses a number outside its range,
// then a max of 0.
#[tactic(auto, using(std::proofs::lemmas::Bool::Decides::nat_tests), unfolding(activity_profile::specs::Cells::cells_needed))]
pub fn cells_needed(
    max_region_size: u32,
    max_prob_propagation_distance: u32,
    filter_size: u32,
    contig_len: u32,
) -> Result<u32, Refusal>
    ensures { outcome_of result
        ≡ cells_needed max_region_size max_prob_propagation_distance filter_size contig_len }
{
    if !are_in_range(max_prob_propagation_distance, filter_size, contig_len) {
        return Err(Refusal::Setting);
    }
    if max_region_size == 0 {
        return Err(Refusal::ZeroSize);
    }
    let formula = u64::from(max_region_size)
        + u64::from(max_prob_propagation_distance)
        + 2 * u64::from(filter_size);
    Ok(u64::from(contig_len).min(formula) as u32)
}

// Whether distance, filter size and contig length are in their ranges.
fn are_in_range(distance: u32, filter: u32, len: u32) -> bool
    ensures { result ≡ sizes_in_range distance filter len }
{
    (distance <= BandPassActivityProfileParams::MAX_PROPAGATION_DISTANCE)
        & (filter <= BandPassActivityProfileParams::MAX_FILTER_SIZE)
        & numbers::within_u32(1, len, genome::MAX_POSITION)
}
