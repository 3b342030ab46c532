// The 32-bit words of a stream: their kinds and fields, the observation that a word holds, and the event that a word is.
// No public function has a `requires`.
#![tactic(auto)]

mod event;
mod observation;

pub use event::event_of;

// A field of a word is said by the number that its lowest bit stands for. Bits 31-30 are the kind; the others belong to the kind.
pub const KIND: u32 = 0x4000_0000;

// Kind 1, an observation: bits 29-22, 21, 20, 19; the bits below are the clip count.
pub const QUALITY: u32 = 0x0040_0000;

pub const DELETION: u32 = 0x0020_0000;

pub const ALTERNATE: u32 = 0x0010_0000;

pub const NEXT_TO_CLIP: u32 = 0x0008_0000;

// Kind 3, a setting: bits 29-24; the bits below are the value.
pub const FIELD: u32 = 0x0100_0000;

// One read at a locus.
#[derive(Clone, Copy)]
pub struct PileupObservation {
    pub qual: u8,
    pub is_deletion: bool,
    pub is_alt: bool,
    pub is_next_to_soft_clip: bool,
    pub read_hq_soft_clip_base_count: u32,
}

// What a stream brings: a word of each kind, a remainder of bytes that is no whole word, and the end of the input. The value
// of a pop and the field of a setting are the word's own numbers: the definitions (`event_of`, `popped`, `with_field`) speak
// of them, and a number that has no meaning is refused where the word stands.
#[derive(Clone, Copy)]
pub enum StreamEvent {
    Locus { position: u32 },
    Observation { word: u32 },
    Pop { value: u32 },
    Setting { field: u32, value: u32 },
    Remainder,
    End,
}
