// Units on the genome, the longest contig, the byte of a missing quality, and the refusals with their numbers.
// No public function has a `requires`.
#![tactic(auto)]

ghost use Rattle.std.specs.Prelude.{◌≡◌};
ghost use Rattle.genome.specs.Refusals.{number_of};

// A position on a contig, from 1 on as in the SAM specification. The Rust's is 64-bit; document 01's positions are 32-bit.
#[derive(Clone, Copy)]
pub struct GenomePosition(pub u32);

// A sample's ploidy.
#[derive(Clone, Copy)]
pub struct Ploidy(pub u8);

// The longest contig, and so the last position: document 01, 'Ranges'.
pub const MAX_POSITION: u32 = 1_073_741_823;

// The byte that SAM has where a base has no quality: document 02, U3.
pub const MISSING_QUALITY: u8 = 255;

// Document 01's refusals, and document 02's: the error of every call that may be refused. No Display: it is printed and handed
// out as its number.
#[derive(Clone, Copy, Debug, PartialEq, Eq)]
pub enum Refusal {
    // A setting outside its range.
    Setting = 1,
    // A lent buffer that is too short: a kernel buffer, or a table of scoring.
    Buffer = 2,
    // A word, or a remainder of bytes, that is not allowed where it stands.
    Word = 3,
    // A pile of too many words.
    Depth = 4,
    // A record that breaks the rules of a profile.
    BrokenProfile = 5,
    // A state of another contig than the profile's.
    Contig = 6,
    // A position that is not on the contig.
    OffContig = 7,
    // A probability that is not in 0.0 to 1.0.
    Activity = 8,
    // A position that is not the one after the last input.
    NotNext = 9,
    // Too few cells for what an add needs.
    Cells = 10,
    // A region size of 0.
    ZeroSize = 11,
    // A set of too many piles: document 02, U6.
    Piles = 12,
}

impl Refusal {
    // The refusal's number. A method, which reads at its callers as what it is, and no `From`.
    pub fn number(self) -> u32
        ensures { result ≡ number_of self }
    {
        self as u32
    }
}
