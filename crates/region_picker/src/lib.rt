// The part that makers link: the picker's entry points as functions over numbers and slices, which region_picker_c exports to C.
// Each function hands its arguments to the entry point of the same name and has its refusals and its promises;
// part/region_picker.h says it in a maker's words. No function has a `requires`: whatever a caller hands in, the answer is
// the one that the contract names.
//
// A profile's record is seven numbers in a lent array, in the order of their names in part/region_picker.h, and the threshold, which the
// caller keeps.
#![tactic(auto)]

mod answer;
mod profile;
mod scoring;

pub use profile::{
    region_picker_add, region_picker_cells_needed, region_picker_kernel, region_picker_make,
    region_picker_pop,
};
pub use scoring::{
    region_picker_count_clips, region_picker_fill_tables, region_picker_priors_length,
    region_picker_score, region_picker_score_set, region_picker_table_length,
};

// The numbers of a record.
pub const RECORD: usize = 7;

// The numbers of a region: contig, start, end, 1 where it is active, padded start, padded end, extension, and the position of the peak. The
// peak itself is a double, and is lent a place of its own.
pub const REGION: usize = 8;

// A pop that hands out no region answers one of these, where it is not refused.
pub const HELD: u32 = 100;

pub const EMPTY: u32 = 101;
