// Making a profile, its kernel, the cells that it needs, adds and pops.
ghost use Rattle.std.specs.Prelude.{◌≡◌, length};
ghost use Rattle.activity_profile.specs.Making.{making, full_after_making, narrow_after_making};
ghost use Rattle.activity_profile.specs.Cells.{cells_needed};
ghost use Rattle.activity_profile.specs.Add.{add_answer, add_cells};
ghost use Rattle.activity_profile.specs.Pop.{pop_answer, pop_cells};
ghost use Rattle.region_picker.specs.Part.{record_of, profile_of, region_fields, evidence_from, state_from, params_from};
ghost use Rattle.region_picker.specs.Part.{Copies, Answers, Adds, Pops};

use region_picker::{RECORD, REGION};

// Makes an empty profile of a contig: its numbers are written to `profile`, and its kernel stands in one of the two
// buffers. Answers 0, or the number of a refusal, which writes nothing.
#[unsafe(no_mangle)]
pub extern "C" fn region_picker_make(
    profile: &mut [u32; RECORD],
    contig: u32,
    contig_len: u32,
    max_prob_propagation_distance: u32,
    active_prob_threshold: f64,
    max_filter_size: u32,
    sigma: f64,
    adaptive_filter_size: bool,
    full: &mut [f64],
    narrow: &mut [f64],
) -> u32
    ensures answers { Answers record_of
        (making contig contig_len
        (params_from max_prob_propagation_distance active_prob_threshold max_filter_size sigma adaptive_filter_size)
        (length full.old) (length narrow.old))
        profile.old profile.new result }
    ensures full_after { full.new
        ≡ full_after_making contig_len
        (params_from max_prob_propagation_distance active_prob_threshold max_filter_size sigma adaptive_filter_size)
        full.old (length narrow.old) }
    ensures narrow_after { narrow.new
        ≡ narrow_after_making contig_len
        (params_from max_prob_propagation_distance active_prob_threshold max_filter_size sigma adaptive_filter_size)
        (length full.old) narrow.old }
{
    region_picker::region_picker_make(
        profile,
        contig,
        contig_len,
        max_prob_propagation_distance,
        active_prob_threshold,
        max_filter_size,
        sigma,
        adaptive_filter_size,
        full,
        narrow,
    )
}

// Copies the kernel of the profile that a making left in its buffers, 2F + 1 numbers, to the front of `kernel`, and
// answers 0. Where one of the three slices is too short for it, the answer is 2, and nothing is written.
#[unsafe(no_mangle)]
pub extern "C" fn region_picker_kernel(
    kernel: &mut [f64],
    filter_size: u32,
    max_filter_size: u32,
    full: &[f64],
    narrow: &[f64],
) -> u32
    ensures { Copies filter_size max_filter_size kernel.old kernel.new
        full.now narrow.now result }
{
    region_picker::region_picker_kernel(kernel, filter_size, max_filter_size, full, narrow)
}

// Writes to `cells` how many of them to lend a profile of these settings, so that no add is refused for want of cells where each
// is followed by unforced pops with this max region size until `HELD` or `EMPTY`. Answers 0, or the number of a refusal,
// which writes nothing.
#[unsafe(no_mangle)]
pub extern "C" fn region_picker_cells_needed(
    max_region_size: u32,
    max_prob_propagation_distance: u32,
    filter_size: u32,
    contig_len: u32,
    cells: &mut u32,
) -> u32
    ensures { Answers (λ n. n)
        (cells_needed max_region_size max_prob_propagation_distance filter_size contig_len)
        cells.old cells.new result }
{
    region_picker::region_picker_cells_needed(
        max_region_size,
        max_prob_propagation_distance,
        filter_size,
        contig_len,
        cells,
    )
}

// Adds the next locus. Answers 0, or the number of a refusal, which writes nothing.
#[unsafe(no_mangle)]
pub extern "C" fn region_picker_add(
    profile: &mut [u32; RECORD],
    active_prob_threshold: f64,
    contig: u32,
    pos: u32,
    active_prob: f64,
    original_active_prob: f64,
    has_clips: bool,
    clip_bases: u32,
    kernel: &[f64],
    cells: &mut [f64],
) -> u32
    ensures adds { Adds
        (add_answer (profile_of profile.old active_prob_threshold) cells.old kernel.now
        (state_from contig pos active_prob original_active_prob has_clips clip_bases))
        profile.old profile.new result }
    ensures cells_after { cells.new
        ≡ add_cells (profile_of profile.old active_prob_threshold) cells.old kernel.now
        (state_from contig pos active_prob original_active_prob has_clips clip_bases) }
{
    region_picker::region_picker_add(
        profile,
        active_prob_threshold,
        contig,
        pos,
        active_prob,
        original_active_prob,
        has_clips,
        clip_bases,
        kernel,
        cells,
    )
}

// Pops the next region that is ready. Answers 0 with the region and its peak written; `HELD` or `EMPTY`; or the number of
// a refusal, which writes nothing.
#[unsafe(no_mangle)]
pub extern "C" fn region_picker_pop(
    profile: &mut [u32; RECORD],
    active_prob_threshold: f64,
    assembly_region_extension: u32,
    min_region_size: u32,
    max_region_size: u32,
    forced: bool,
    cells: &mut [f64],
    region: &mut [u32; REGION],
    peak: &mut f64,
) -> u32
    ensures pops { Pops
        (pop_answer (profile_of profile.old active_prob_threshold) cells.old
        assembly_region_extension min_region_size max_region_size forced)
        profile.old profile.new region.old region.new
        peak.old peak.new result }
    ensures cells_after { cells.new
        ≡ pop_cells (profile_of profile.old active_prob_threshold) cells.old
        min_region_size max_region_size forced }
{
    region_picker::region_picker_pop(
        profile,
        active_prob_threshold,
        assembly_region_extension,
        min_region_size,
        max_region_size,
        forced,
        cells,
        region,
        peak,
    )
}
