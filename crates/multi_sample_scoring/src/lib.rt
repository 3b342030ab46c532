// Scoring a locus that was read as several samples: a set of piles, scored together (document 02, U6). After the Rust's
// haplotype_caller_activity_profile_state_multi_sample, with its calculate_multi_sample_any_non_ref_posterior in the
// place of the joint EM. A set is one run of words and the lengths of its piles, each of which stands behind the one
// before, as C lends it (region_picker_score_set), and document 02 has it. No public function has a `requires`.
//
// The settings and the tables go side by side: activity_scoring says why at `ScoringTables`.
#![tactic(auto)]

mod lengths;
mod posterior;
mod score;

pub use score::{
    haplotype_caller_activity_profile_state_multi_sample,
    haplotype_caller_activity_profile_state_multi_sample_by_tables,
};

// The most piles of a set, empty ones counted: document 02's refusal 12.
pub const MAX_PILES: usize = 64;
