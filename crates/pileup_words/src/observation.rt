// Observation words.
ghost use Rattle.std.specs.Prelude.{◌≡◌};
ghost use Rattle.pileup_words.specs.Words.{is_observation, observation};

use crate::{ALTERNATE, DELETION, KIND, NEXT_TO_CLIP, PileupObservation, QUALITY};

impl PileupObservation {
    // Whether a word is an observation: of kind 1, by number, as the definition is_observation.
    pub fn is_word(w: u32) -> bool
        ensures { result ≡ is_observation w }
    {
        w / KIND == 1
    }

    // The observation that a word holds, whatever its kind: no `From`, since a word of another kind is none.
    pub fn from_word(w: u32) -> PileupObservation
        ensures { result ≡ observation w }
    {
        PileupObservation {
            qual: (w / QUALITY % 256) as u8,
            is_deletion: w / DELETION % 2 == 1,
            is_alt: w / ALTERNATE % 2 == 1,
            is_next_to_soft_clip: w / NEXT_TO_CLIP % 2 == 1,
            read_hq_soft_clip_base_count: w % NEXT_TO_CLIP,
        }
    }
}
