// Making a profile, its kernel, the cells that it needs, adds and pops.
ghost use Rattle.std.specs.Prelude.{◌≡◌, length};
ghost use Rattle.activity_profile.specs.Making.{making, full_after_making, narrow_after_making};
ghost use Rattle.activity_profile.specs.Cells.{cells_needed};
ghost use Rattle.activity_profile.specs.Add.{add_answer, add_cells};
ghost use Rattle.activity_profile.specs.Pop.{pop_answer, pop_cells};
ghost use Rattle.region_picker.specs.Part.{record_of, profile_of, region_fields, evidence_from, state_from, params_from};
ghost use Rattle.region_picker.specs.Part.{Copies, Answers, Adds, Pops};

use crate::answer::write_answer;
use crate::{EMPTY, HELD, RECORD, REGION};
use activity_profile::{
    ActivityEvidence, ActivityProfileRegion, ActivityProfileState, BandPassActivityProfile, Popped,
};
use band_pass_kernel::BandPassActivityProfileParams;
use genome::{GenomePosition, Refusal};

// Makes an empty profile of a contig: its numbers are written to `profile`, and its kernel stands in one of the two
// buffers. Answers 0, or the number of a refusal, which writes nothing.
pub fn region_picker_make(
    profile: &mut [u32; RECORD],
    contig: u32,
    contig_len: u32,
    max_prob_propagation_distance: u32,
    active_prob_threshold: f64,
    max_filter_size: u32,
    sigma: f64,
    adaptive_filter_size: bool,
    full: &mut [f64],
    narrow: &mut [f64],
) -> u32
    ensures answers { Answers record_of
        (making contig contig_len
        (params_from max_prob_propagation_distance active_prob_threshold max_filter_size sigma adaptive_filter_size)
        (length full.old) (length narrow.old))
        profile.old profile.new result }
    ensures full_after { full.new
        ≡ full_after_making contig_len
        (params_from max_prob_propagation_distance active_prob_threshold max_filter_size sigma adaptive_filter_size)
        full.old (length narrow.old) }
    ensures narrow_after { narrow.new
        ≡ narrow_after_making contig_len
        (params_from max_prob_propagation_distance active_prob_threshold max_filter_size sigma adaptive_filter_size)
        (length full.old) narrow.old }
{
    let params = BandPassActivityProfileParams {
        max_prob_propagation_distance,
        active_prob_threshold,
        max_filter_size,
        sigma,
        adaptive_filter_size,
    };
    let made = profile_record::new(contig, contig_len, params, full, narrow);
    write_answer(made.map(record_of), profile)
}

// Copies the kernel of the profile that a making left in its buffers, 2F + 1 numbers, to the front of `kernel`, and
// answers 0. Where one of the three slices is too short for it, the answer is 2, and nothing is written.
pub fn region_picker_kernel(
    kernel: &mut [f64],
    filter_size: u32,
    max_filter_size: u32,
    full: &[f64],
    narrow: &[f64],
) -> u32
    ensures { Copies filter_size max_filter_size kernel.old kernel.new
        full.now narrow.now result }
{
    // a kernel's length, as band_pass_kernel's private `band_of`: made public, that would take a clause and edits for one line
    let n = 2 * filter_size as usize + 1;
    if (kernel.len() < n) | ((full.len() < n) | (narrow.len() < n)) {
        return Refusal::Buffer.number();
    }
    // Of these settings only `max_filter_size` is looked at: it says which buffer holds the kernel.
    let params = BandPassActivityProfileParams {
        max_prob_propagation_distance: 0,
        active_prob_threshold: 0.0,
        max_filter_size,
        sigma: 1.0,
        adaptive_filter_size: false,
    };
    band_pass_kernel::copy_kernel(kernel, params.normalized_kernel(filter_size, full, narrow));
    0
}

// Writes to `cells` how many of them to lend a profile of these settings, so that no add is refused for want of cells where each
// is followed by unforced pops with this max region size until `HELD` or `EMPTY`. Answers 0, or the number of a refusal,
// which writes nothing.
pub fn region_picker_cells_needed(
    max_region_size: u32,
    max_prob_propagation_distance: u32,
    filter_size: u32,
    contig_len: u32,
    cells: &mut u32,
) -> u32
    ensures { Answers (λ n. n)
        (cells_needed max_region_size max_prob_propagation_distance filter_size contig_len)
        cells.old cells.new result }
{
    let needed = profile_record::cells_needed(
        max_region_size,
        max_prob_propagation_distance,
        filter_size,
        contig_len,
    );
    write_answer(needed, cells)
}

// Adds the next locus. Answers 0, or the number of a refusal, which writes nothing.
pub fn region_picker_add(
    profile: &mut [u32; RECORD],
    active_prob_threshold: f64,
    contig: u32,
    pos: u32,
    active_prob: f64,
    original_active_prob: f64,
    has_clips: bool,
    clip_bases: u32,
    kernel: &[f64],
    cells: &mut [f64],
) -> u32
    ensures adds { Adds
        (add_answer (profile_of profile.old active_prob_threshold) cells.old kernel.now
        (state_from contig pos active_prob original_active_prob has_clips clip_bases))
        profile.old profile.new result }
    ensures cells_after { cells.new
        ≡ add_cells (profile_of profile.old active_prob_threshold) cells.old kernel.now
        (state_from contig pos active_prob original_active_prob has_clips clip_bases) }
{
    let p = profile_of(profile, active_prob_threshold);
    let evidence = evidence_from(has_clips, clip_bases);
    let state = ActivityProfileState {
        contig,
        pos: GenomePosition(pos),
        active_prob,
        original_active_prob,
        evidence,
    };
    let added = profile_add::add(p, state, kernel, cells).map_err(|refused| refused.refusal);
    write_answer(added.map(record_of), profile)
}

// Pops the next region that is ready. Answers 0 with the region and its peak written; `HELD` or `EMPTY`; or the number of
// a refusal, which writes nothing.
pub fn region_picker_pop(
    profile: &mut [u32; RECORD],
    active_prob_threshold: f64,
    assembly_region_extension: u32,
    min_region_size: u32,
    max_region_size: u32,
    forced: bool,
    cells: &mut [f64],
    region: &mut [u32; REGION],
    peak: &mut f64,
) -> u32
    ensures pops { Pops
        (pop_answer (profile_of profile.old active_prob_threshold) cells.old
        assembly_region_extension min_region_size max_region_size forced)
        profile.old profile.new region.old region.new
        peak.old peak.new result }
    ensures cells_after { cells.new
        ≡ pop_cells (profile_of profile.old active_prob_threshold) cells.old
        min_region_size max_region_size forced }
{
    let p = profile_of(profile, active_prob_threshold);
    let popped = profile_pop::try_pop_next_ready_region(
        p,
        cells,
        assembly_region_extension,
        min_region_size,
        max_region_size,
        forced,
    );
    // Written out, and not by `write_answer`: a region, `HELD` and `EMPTY` write to different places.
    match popped {
        Ok(Popped::Ready(r, next)) => {
            *region = region_fields(r);
            *peak = r.peak;
            *profile = record_of(next);
            0
        }
        Ok(Popped::Held(next)) => {
            *profile = record_of(next);
            HELD
        }
        Ok(Popped::Empty(next)) => {
            *profile = record_of(next);
            EMPTY
        }
        Err(refused_pop) => refused_pop.refusal.number(),
    }
}

fn record_of(p: BandPassActivityProfile) -> [u32; RECORD]
    ensures { result ≡ record_of p }
{
    [
        p.contig,
        p.contig_len,
        p.max_prob_propagation_distance,
        p.filter_size,
        p.region_start,
        p.last_input_pos,
        p.count,
    ]
}

fn profile_of(profile: &[u32; RECORD], active_prob_threshold: f64) -> BandPassActivityProfile
    ensures { result ≡ profile_of profile.now active_prob_threshold }
{
    BandPassActivityProfile {
        contig: profile[0],
        contig_len: profile[1],
        max_prob_propagation_distance: profile[2],
        active_prob_threshold,
        filter_size: profile[3],
        region_start: profile[4],
        last_input_pos: profile[5],
        count: profile[6],
    }
}

fn region_fields(r: ActivityProfileRegion) -> [u32; REGION]
    ensures { result ≡ region_fields r }
{
    [
        r.contig,
        r.start,
        r.end,
        u32::from(r.is_active),
        r.padded_start,
        r.padded_end,
        r.extension,
        r.peak_pos,
    ]
}

fn evidence_from(has_clips: bool, clip_bases: u32) -> ActivityEvidence
    ensures { result ≡ evidence_from has_clips clip_bases }
{
    if has_clips {
        return ActivityEvidence::HighQualitySoftClips { clip_bases };
    }
    ActivityEvidence::Plain
}
