// The region program over a stream of events: its state, what each event answers, the definition of the whole program,
// and its laws. The functions that act on events stand above, in stream_profile, observation_runs and region_stream.
#![tactic(auto)]

ghost use Rattle.std.specs.Prelude.{◌≡◌, replicate};
ghost use Rattle.doubles.specs.Constants.{zero_f};
ghost use Rattle.region_program.specs.declared.TheConstants.{PILE, KERNEL, CELLS, TABLE, PRIORS};

use activity_profile::{ActivityProfileRegion, BandPassActivityProfile};
use genome::Refusal;
use stream_settings::StreamSettings;

// "There are 4,096 cells."
pub const CELLS: usize = 4096;

// A kernel of the widest filter: 2 × 500 + 1 entries.
pub const KERNEL: usize = 1001;

// One word more than the deepest pile: a pile that fills it is refused, whatever words would follow.
pub const PILE: usize = 16385;

// The tables that piles are scored by, of a ploidy of 2: contribution_table's, and genotype_posterior's list of priors.
pub const TABLE: usize = 2043;

pub const PRIORS: usize = 6;

// The one contig of a stream.
pub const CONTIG: u32 = 0;

// What is lent to a stream beside its state: the pile that is being read, its kernel, and its cells. Arrays, for there is no
// heap; how much of each is in use the state says (`OpenPile.depth`, the profile's filter size and count), and the
// definitions (`Taken`, `Stepped`) speak of the whole arrays.
#[derive(Drop)]
pub struct StreamMemory {
    pub pile: [u32; PILE],
    pub kernel: [f64; KERNEL],
    pub cells: [f64; CELLS],
}

// The tables that piles are scored by, lent to a stream too. Not part of its memory: they are filled once and may be lent to
// many streams.
#[derive(Drop)]
pub struct StreamTables {
    pub contributions: [f64; TABLE],
    pub priors: [f64; PRIORS],
}

// The pile of a locus that is being read: its position, the index of its word, and how many of its observations are kept.
#[derive(Clone, Copy)]
pub struct OpenPile {
    pub locus: u32,
    pub locus_index: u64,
    pub depth: usize,
}

// Where in its events the stream is.
#[derive(Clone, Copy)]
pub enum Phase {
    // Before the first locus: settings may come, and there is no profile yet.
    Settings,
    // Past the first locus, with no pile open.
    Loci,
    // Within the pile of a locus.
    Pile(OpenPile),
}

// What the events so far have left, and the index of the next word. The profile is looked at past the first locus
// alone, and yet no part of the phase: the definitions (`seen`, `new_stream`, `Reading`) have it in every phase.
#[derive(Clone, Copy)]
pub struct RegionStream {
    pub settings: StreamSettings,
    pub profile: BandPassActivityProfile,
    pub phase: Phase,
    pub index: u64,
}

// What acting on an event that is not refused answers, with the state that it leaves.
#[derive(Clone, Copy)]
pub enum Step {
    // The next event may come.
    Next(RegionStream),
    // The pile that was open is scored and added; the same event is to be acted on again.
    Again(RegionStream),
    // A region to print; the same event is to be acted on again.
    Line(ActivityProfileRegion, RegionStream),
}

// A refusal to print, with the index of the word that it names: it ends the program.
#[derive(Clone, Copy)]
pub struct StreamRefusal {
    pub refusal: Refusal,
    pub index: u64,
}

// An event that is refused: why, and the state as it was given, which `answer_of` and `refused_as_it_was` promise.
#[derive(Clone, Copy)]
pub struct RefusedStep {
    pub why: StreamRefusal,
    pub stream: RegionStream,
}

// What a run of observations leaves: the state after them, and how many they are.
#[derive(Clone, Copy)]
pub struct Observed {
    pub stream: RegionStream,
    pub taken: usize,
}

impl StreamMemory {
    // Memory that nothing was written to.
    pub fn new() -> StreamMemory
        ensures pile_value { result.pile ≡ replicate PILE 0 }
        ensures kernel_value { result.kernel ≡ replicate KERNEL zero_f }
        ensures cells_value { result.cells ≡ replicate CELLS zero_f }
    {
        StreamMemory {
            pile: [0; PILE],
            kernel: [0.0; KERNEL],
            cells: [0.0; CELLS],
        }
    }
}

impl Default for StreamMemory {
    ghost is_default = { λ m. (m.pile ≡ replicate PILE 0) × (m.kernel ≡ replicate KERNEL zero_f) × (m.cells ≡ replicate CELLS zero_f) };

    fn default() -> StreamMemory {
        StreamMemory::new()
    }
}

impl StreamTables {
    // Tables that are not filled yet.
    pub fn new() -> StreamTables
        ensures contributions_value { result.contributions ≡ replicate TABLE zero_f }
        ensures priors_value { result.priors ≡ replicate PRIORS zero_f }
    {
        StreamTables {
            contributions: [0.0; TABLE],
            priors: [0.0; PRIORS],
        }
    }
}

impl Default for StreamTables {
    ghost is_default = { λ t. (t.contributions ≡ replicate TABLE zero_f) × (t.priors ≡ replicate PRIORS zero_f) };

    fn default() -> StreamTables {
        StreamTables::new()
    }
}
