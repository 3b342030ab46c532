// Making a profile.
ghost use Rattle.std.specs.Prelude.{◌≡◌, length};
ghost use Rattle.genome.specs.Refusals.{outcome_of};
ghost use Rattle.activity_profile.specs.Making.{fresh_profile, making, full_after_making, narrow_after_making};

use activity_profile::BandPassActivityProfile;
use band_pass_kernel::BandPassActivityProfileParams;
use genome::Refusal;

// An empty profile of a contig, its kernel written to the lent buffers; `BandPassActivityProfileParams::normalized_kernel` is the
// part of them that holds it: two slices, as C lends them. Refuses a setting outside its range, then a buffer that is too
// short; a refusal writes nothing. A free function, since the record's type stands in a crate without functions.
#[tactic(auto, using(std::proofs::lemmas::Bool::Decides::nat_tests), unfolding(activity_profile::specs::Making::making, activity_profile::specs::Making::full_after_making, activity_profile::specs::Making::narrow_after_making))]
pub fn new(
    contig: u32,
    contig_len: u32,
    params: BandPassActivityProfileParams,
    full: &mut [f64],
    narrow: &mut [f64],
) -> Result<BandPassActivityProfile, Refusal>
    ensures result_value { outcome_of result ≡ making contig contig_len params (length full.old) (length narrow.old) }
    ensures full_after { full.new ≡ full_after_making contig_len params full.old (length narrow.old) }
    ensures narrow_after { narrow.new
        ≡ narrow_after_making contig_len params (length full.old) narrow.old }
{
    if !numbers::within_u32(1, contig_len, genome::MAX_POSITION) {
        return Err(Refusal::Setting);
    }
    let filter_size = params.resolved_filter_and_kernel(full, narrow)?;
    Ok(fresh(contig, contig_len, params, filter_size))
}

// The record of a profile that holds no locus.
fn fresh(
    contig: u32,
    contig_len: u32,
    params: BandPassActivityProfileParams,
    filter_size: u32,
) -> BandPassActivityProfile
    ensures { result ≡ fresh_profile contig contig_len params filter_size }
{
    BandPassActivityProfile {
        contig,
        contig_len,
        max_prob_propagation_distance: params.max_prob_propagation_distance,
        active_prob_threshold: params.active_prob_threshold,
        filter_size,
        region_start: 0,
        last_input_pos: 0,
        count: 0,
    }
}
