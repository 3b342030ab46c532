// When a record is broken.
ghost use Rattle.std.specs.Prelude.{◌≡◌};
ghost use Rattle.activity_profile.specs.Profile.{settings_in_range, placed, broken};

use activity_profile::BandPassActivityProfile;
use band_pass_kernel::BandPassActivityProfileParams;

// Whether the record breaks the rules, with `cells` cells lent. The record may hold any numbers: sums are in 64 bits.
#[tactic(auto, unfolding(activity_profile::specs::Profile::broken))]
pub fn is_broken(p: BandPassActivityProfile, cells: usize) -> bool
    ensures { result ≡ broken p cells }
{
    let settings = has_settings_in_range(p);
    let loci = is_placed(p);
    !settings
        | (BandPassActivityProfileParams::MAX_FILTER_SIZE < p.filter_size)
        | ((cells as u64) < u64::from(p.count))
        | ((p.count == 0) & !((p.region_start == 0) & (p.last_input_pos == 0)))
        | ((0 < p.count) & !loci)
}

// Whether the settings that the record holds are in their ranges.
#[tactic(auto, unfolding(activity_profile::specs::Profile::settings_in_range))]
fn has_settings_in_range(p: BandPassActivityProfile) -> bool
    ensures { result ≡ settings_in_range p }
{
    numbers::within_u32(1, p.contig_len, genome::MAX_POSITION)
        & (p.max_prob_propagation_distance
            <= BandPassActivityProfileParams::MAX_PROPAGATION_DISTANCE)
        & numbers::within_f64(0.0, p.active_prob_threshold, 1.0)
}

// Whether the loci of a record that holds some stand as they have to.
#[tactic(auto, unfolding(activity_profile::specs::Profile::placed))]
fn is_placed(p: BandPassActivityProfile) -> bool
    ensures { result ≡ placed p }
{
    let start = u64::from(p.region_start);
    let last = u64::from(p.last_input_pos);
    let end = numbers::monus(start + u64::from(p.count), 1);
    (1 <= start)
        & (start <= last + 1)
        & (1 <= last)
        & (last <= end)
        & (end <= u64::from(p.contig_len))
        & (end <= last + u64::from(p.filter_size))
}
