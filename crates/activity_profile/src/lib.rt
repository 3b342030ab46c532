// The band-pass activity profile: its record, what its calls answer, their definitions and the laws over them (the
// Rust's activity_profile.rs).
//
// The record goes in by value and comes back; the activity at each locus stands in cells that the caller lends, as C does, for
// there is no heap; `count` says how many of them hold a locus.
#![tactic(auto)]

use genome::{GenomePosition, Refusal};

// What a locus was scored on: bases alone, or a count of clipped bases. Document 01's two kinds of evidence, with the names that the Rust
// gives them, in place of an Option: `super_states` and `evidence_of` speak of them.
#[derive(Clone, Copy)]
pub enum ActivityEvidence {
    Plain,
    HighQualitySoftClips { clip_bases: u32 },
}

// One scored locus.
#[derive(Clone, Copy)]
pub struct ActivityProfileState {
    pub contig: u32,
    pub pos: GenomePosition,
    pub active_prob: f64,
    pub original_active_prob: f64,
    pub evidence: ActivityEvidence,
}

// The profile of one contig. Cell i of the first `count` lent cells is the activity at region_start + i; at count 0 region_start and
// last_input_pos are 0, which is no position. They are numbers and no Option, since C hands the record over as numbers, and `broken` has
// an answer for any of them, also for a 0 where loci are held.
#[derive(Clone, Copy)]
pub struct BandPassActivityProfile {
    pub contig: u32,
    pub contig_len: u32,
    pub max_prob_propagation_distance: u32,
    pub active_prob_threshold: f64,
    pub filter_size: u32,
    pub region_start: u32,
    pub last_input_pos: u32,
    pub count: u32,
}

// A region handed out: its loci run from start to end, both included, and the padded bounds stay on the contig. Its peak is the largest of
// its cells, as the pop found them, the first of equals, and stands at peak_pos; a first cell that is NaN is the peak (document 02, U2).
#[derive(Clone, Copy)]
pub struct ActivityProfileRegion {
    pub contig: u32,
    pub start: u32,
    pub end: u32,
    pub is_active: bool,
    pub padded_start: u32,
    pub padded_end: u32,
    pub extension: u32,
    pub peak: f64,
    pub peak_pos: u32,
}

// A call on a profile that is refused: why, and the record as it was given, which document 01 has a refusal return: `add_answer_of` and
// `pop_answer_of` take it from here.
#[derive(Clone, Copy)]
pub struct RefusedCall {
    pub refusal: Refusal,
    pub profile: BandPassActivityProfile,
}

// What a pop that is not refused comes to, with the record as it is after it; for held and empty too, since `pop_answer_of` takes it
// from there.
#[derive(Clone, Copy)]
pub enum Popped {
    Ready(ActivityProfileRegion, BandPassActivityProfile),
    Held(BandPassActivityProfile),
    Empty(BandPassActivityProfile),
}
