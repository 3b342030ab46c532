// The region program but for reading and writing, document 01's chapter of that name: one event in, one answer out. No
// public function has a `requires`.
//
// The stream's state goes in by value and comes back. Its memory and the tables that piles are scored by are lent, as two
// structs and not as one: tables are filled once and read by many streams, as replay_lists does, and memory is a stream's own.
//
// The functions below `act` ask where the stream stands by a `requires`: a type for each place would hold the same stream,
// to be taken out of it by each function and put back by most, and so be no plainer.
#![tactic(auto)]

ghost use Rattle.std.specs.Prelude.{◌≡◌, ℕ, List, Float};
ghost use Rattle.pileup_words.specs.declared.StreamEvent.TheVariants.{Locus, Observation, Pop, Setting as SettingEvent};
ghost use Rattle.region_program.specs.declared.Phase.TheVariants.{Settings, Loci, Pile};
ghost use Rattle.region_program.specs.Program.{next, Scoring};
ghost use Rattle.region_program.specs.Stream.{new_stream, stream_of, pile_of, Stepped, EndsPile};
ghost use Rattle.region_program.specs.Tables.{table_score};
ghost use Rattle.region_stream.specs.Refused.{refused_step};

use activity_profile::{BandPassActivityProfile, Popped};
use activity_scoring::ScoringTables;
use genome::Refusal;
use pileup_words::StreamEvent;
use region_program::{
    CELLS, KERNEL, OpenPile, PILE, Phase, RefusedStep, RegionStream, Step, StreamMemory,
    StreamRefusal, StreamTables,
};
use stream_settings::StreamSettings;

// A stream before its first event. It has a profile from the start, of zeros: the definitions `new_stream` and `seen` read
// one in every phase.
pub fn new_stream() -> RegionStream
    ensures { result ≡ new_stream }
{
    RegionStream {
        settings: StreamSettings::default(),
        profile: BandPassActivityProfile {
            contig: 0,
            contig_len: 0,
            max_prob_propagation_distance: 0,
            active_prob_threshold: 0.0,
            filter_size: 0,
            region_start: 0,
            last_input_pos: 0,
            count: 0,
        },
        phase: Phase::Settings,
        index: 0,
    }
}

// Acts on an event once. After `Again` and `Line` the same event is to be acted on again. The tables are those that
// `fill_tables` filled: with others the scores are others.
pub fn act(
    event: StreamEvent,
    s: RegionStream,
    memory: &mut StreamMemory,
    tables: &StreamTables,
) -> Result<Step, RefusedStep>
    ensures { Stepped (table_score tables.now.contributions tables.now.priors) event s
        memory.old.pile memory.new.pile memory.old.kernel memory.new.kernel
        memory.old.cells memory.new.cells result }
{
    match s.phase {
        Phase::Settings => before_loci(event, s, &mut memory.kernel),
        Phase::Loci => between_piles(event, s, &mut memory.cells),
        Phase::Pile(at) => within_pile(event, s, at, memory, tables),
    }
}

// An event that is refused at the word of an index: the stream is handed back as it was.
fn refused(s: RegionStream, refusal: Refusal, index: u64) -> RefusedStep
    ensures { result ≡ refused_step refusal index s }
{
    let why = StreamRefusal { refusal, index };
    RefusedStep { why, stream: s }
}

// ---- before the first locus

// A setting is taken, a locus has the profile made, and a pop has nothing to hand out.
fn before_loci(
    event: StreamEvent,
    s: RegionStream,
    kernel: &mut [f64; KERNEL],
) -> Result<Step, RefusedStep>
    requires { s.phase ≡ Settings }
    ensures { (scoring : Scoring) (pile : List ℕ) (cells : List Float)
        → Stepped scoring event s pile pile kernel.old kernel.new cells cells result }
{
    match event {
        StreamEvent::Locus { position } => open_first(s, position, kernel),
        StreamEvent::Pop { value } => pop_unmade(s, value),
        StreamEvent::Setting { field, value } => set_field(s, field, value),
        StreamEvent::Observation { word: _ } | StreamEvent::Remainder => {
            Err(refused(s, Refusal::Word, s.index))
        }
        StreamEvent::End => Ok(Step::Next(s)),
    }
}

// The first locus has the profile made.
fn open_first(
    s: RegionStream,
    position: u32,
    kernel: &mut [f64; KERNEL],
) -> Result<Step, RefusedStep>
    requires { s.phase ≡ Settings }
    ensures { (scoring : Scoring) (pile : List ℕ) (cells : List Float)
        → Stepped scoring (Locus position) s pile pile kernel.old kernel.new cells cells result }
{
    let made = stream_profile::make_profile(s.settings, kernel);
    let p = made.map_err(|why| refused(s, why, s.index))?;
    Ok(Step::Next(opened(s, p, position)))
}

// The stream with the pile of a locus open.
fn opened(s: RegionStream, p: BandPassActivityProfile, position: u32) -> RegionStream
    ensures { result ≡ stream_of s.settings p (Pile (pile_of position s.index 0)) (next s.index) }
{
    let phase = Phase::Pile(OpenPile {
        locus: position,
        locus_index: s.index,
        depth: 0,
    });
    RegionStream {
        profile: p,
        phase,
        index: s.index.wrapping_add(1),
        ..s
    }
}

// A pop before the first locus: there is nothing to hand out, but a size of 0 is refused. Here and in `pop` the value stays
// a number: the definitions `pop_unmade` and `popped`, which `Stepped` stands on, speak of the event `Pop value` for every
// value, and one that is neither 0 nor 1 is refused as a word, before anything else.
fn pop_unmade(s: RegionStream, value: u32) -> Result<Step, RefusedStep>
    requires { s.phase ≡ Settings }
    ensures { (scoring : Scoring) (pile : List ℕ) (kernel cells : List Float)
        → Stepped scoring (Pop value) s pile pile kernel kernel cells cells result }
{
    if value > 1 {
        return Err(refused(s, Refusal::Word, s.index));
    }
    let settings = s.settings;
    if (settings.min_region_size == 0) | (settings.max_region_size == 0) {
        return Err(refused(s, Refusal::ZeroSize, s.index));
    }
    Ok(Step::Next(advanced(s, s.profile)))
}

// The stream behind a word that leaves this record.
fn advanced(s: RegionStream, p: BandPassActivityProfile) -> RegionStream
    ensures { result ≡ stream_of s.settings p s.phase (next s.index) }
{
    RegionStream {
        profile: p,
        index: s.index.wrapping_add(1),
        ..s
    }
}

// A setting.
fn set_field(s: RegionStream, field: u32, value: u32) -> Result<Step, RefusedStep>
    requires { s.phase ≡ Settings }
    ensures { (scoring : Scoring) (pile : List ℕ) (kernel cells : List Float)
        → Stepped scoring (SettingEvent field value) s pile pile kernel kernel cells cells result }
{
    let settings = s
        .settings
        .with_field(field, value)
        .map_err(|why| refused(s, why, s.index))?;
    Ok(Step::Next(RegionStream {
        settings,
        index: s.index.wrapping_add(1),
        ..s
    }))
}

// ---- past it, with no pile open

// A locus opens its pile, and a pop pops once.
fn between_piles(
    event: StreamEvent,
    s: RegionStream,
    cells: &mut [f64; CELLS],
) -> Result<Step, RefusedStep>
    requires { s.phase ≡ Loci }
    ensures { (scoring : Scoring) (pile : List ℕ) (kernel : List Float)
        → Stepped scoring event s pile pile kernel kernel cells.old cells.new result }
{
    match event {
        StreamEvent::Locus { position } => Ok(Step::Next(opened(s, s.profile, position))),
        StreamEvent::Pop { value } => pop(s, value, cells),
        StreamEvent::Observation { word: _ }
        | StreamEvent::Setting { field: _, value: _ }
        | StreamEvent::Remainder => Err(refused(s, Refusal::Word, s.index)),
        StreamEvent::End => Ok(Step::Next(s)),
    }
}

// One pop, its word's value being 0 unforced and 1 forced.
fn pop(s: RegionStream, value: u32, cells: &mut [f64; CELLS]) -> Result<Step, RefusedStep>
    requires { s.phase ≡ Loci }
    ensures { (scoring : Scoring) (pile : List ℕ) (kernel : List Float)
        → Stepped scoring (Pop value) s pile pile kernel kernel cells.old cells.new result }
{
    if value > 1 {
        return Err(refused(s, Refusal::Word, s.index));
    }
    let popped = profile_pop::try_pop_next_ready_region(
        s.profile,
        cells,
        s.settings.assembly_region_extension,
        s.settings.min_region_size,
        s.settings.max_region_size,
        value == 1,
    )
    .map_err(|call| refused(s, call.refusal, s.index))?;
    match popped {
        Popped::Ready(region, q) => {
            let left = RegionStream { profile: q, ..s };
            Ok(Step::Line(region, left))
        }
        Popped::Held(q) => Ok(Step::Next(advanced(s, q))),
        Popped::Empty(q) => Ok(Step::Next(advanced(s, q))),
    }
}

// ---- within a pile

// An observation is kept, a setting is refused, and anything else ends the pile.
fn within_pile(
    event: StreamEvent,
    s: RegionStream,
    at: OpenPile,
    memory: &mut StreamMemory,
    tables: &StreamTables,
) -> Result<Step, RefusedStep>
    requires { s.phase ≡ Pile at }
    ensures { Stepped (table_score tables.now.contributions tables.now.priors) event s
        memory.old.pile memory.new.pile memory.old.kernel memory.new.kernel
        memory.old.cells memory.new.cells result }
{
    match event {
        StreamEvent::Observation { word } => observe(s, at, word, &mut memory.pile),
        StreamEvent::Setting { field: _, value: _ } => Err(refused(s, Refusal::Word, s.index)),
        StreamEvent::Locus { position: _ }
        | StreamEvent::Pop { value: _ }
        | StreamEvent::Remainder
        | StreamEvent::End => end_pile(s, at, memory, tables),
    }
}

// One observation more.
fn observe(
    s: RegionStream,
    at: OpenPile,
    word: u32,
    pile: &mut [u32; PILE],
) -> Result<Step, RefusedStep>
    requires { s.phase ≡ Pile at }
    ensures { (scoring : Scoring) (kernel cells : List Float)
        → Stepped scoring (Observation word) s pile.old pile.new kernel kernel cells cells result }
{
    let depth = observation_runs::keep(pile, at.depth, word);
    Ok(Step::Next(RegionStream {
        phase: Phase::Pile(OpenPile { depth, ..at }),
        index: s.index.wrapping_add(1),
        ..s
    }))
}

// Scores the pile and adds its locus. A refusal names its locus word.
fn end_pile(
    s: RegionStream,
    at: OpenPile,
    memory: &mut StreamMemory,
    tables: &StreamTables,
) -> Result<Step, RefusedStep>
    requires { s.phase ≡ Pile at }
    ensures ends { EndsPile (table_score tables.now.contributions tables.now.priors) s at
        memory.old.pile memory.old.kernel memory.old.cells memory.new.cells result }
    ensures pile_left { memory.new.pile ≡ memory.old.pile }
    ensures kernel_left { memory.new.kernel ≡ memory.old.kernel }
{
    let p = s.profile;
    let words = &memory.pile[..at.depth.min(PILE)];
    let kernel = band_pass_kernel::kernel_in(&memory.kernel, p.filter_size);
    let tables = ScoringTables {
        contributions: &tables.contributions,
        priors: &tables.priors,
    };
    let cells = &mut memory.cells;
    let added = stream_profile::add_pile(p, at.locus, words, kernel, cells, tables);
    let q = added.map_err(|why| refused(s, why, at.locus_index))?;
    Ok(Step::Again(closed(s, q)))
}

// The stream at the same word with no pile open and another record.
fn closed(s: RegionStream, p: BandPassActivityProfile) -> RegionStream
    ensures { result ≡ stream_of s.settings p Loci s.index }
{
    RegionStream {
        profile: p,
        phase: Phase::Loci,
        ..s
    }
}
