// Single adds and pops, on any record and cells. A word is named by its place, as the list's description counts them: a cursor
// that moves at each read would hide which word is which.
use activity_profile::{
    ActivityEvidence, ActivityProfileRegion, ActivityProfileState, BandPassActivityProfile, Popped,
    RefusedCall,
};
use answer_list::{Compared, double_at, doubles_from, length_at, number_at, word_at};
use genome::GenomePosition;

// record, state, k, kernel[k], n, cells[n]; the refusal's number or 0, record, cells[n].
pub(crate) fn add(words: &[u64]) -> bool {
    let k = length_at(words, 13);
    let kernel = doubles_from(words, 14);
    let n = length_at(words, 14 + k);
    let mut room = doubles_from(words, 15 + k);
    let cells = &mut room[..n];
    let added = profile_add::add(record_at(words, 0), state_at(words, 8), &kernel[..k], cells);
    let (c, p) = with_added(Compared::starting(words, 15 + k + n), added);
    with_record(c, p).doubles(cells).whole()
}

// With the number of an add's refusal compared, or 0; and the record that it hands back.
pub(crate) fn with_added<'a>(
    c: Compared<'a>,
    added: Result<BandPassActivityProfile, RefusedCall>,
) -> (Compared<'a>, BandPassActivityProfile) {
    match added {
        Ok(p) => (c.word(0), p),
        Err(refused) => (c.word(u64::from(refused.refusal.number())), refused.profile),
    }
}

// record, extension, min, max, forced, n, cells[n]; the answer, record, cells[n].
pub(crate) fn pop(words: &[u64]) -> bool {
    let n = length_at(words, 12);
    let mut room = doubles_from(words, 13);
    let cells = &mut room[..n];
    let popped = pop_at(words, 8, record_at(words, 0), cells);
    let (c, p) = with_popped(Compared::starting(words, 13 + n), popped);
    with_record(c, p).doubles(cells).whole()
}

// A pop with the sizes from word `at` on.
pub(crate) fn pop_at(
    words: &[u64],
    at: usize,
    p: BandPassActivityProfile,
    cells: &mut [f64],
) -> Result<Popped, RefusedCall> {
    profile_pop::try_pop_next_ready_region(
        p,
        cells,
        number_at(words, at),
        number_at(words, at.wrapping_add(1)),
        number_at(words, at.wrapping_add(2)),
        word_at(words, at.wrapping_add(3)) == 1,
    )
}

// With the answer compared: 0, the region and its peak; 1, held; 2, empty; 3 and the refusal's number. And the record that
// the pop hands back.
pub(crate) fn with_popped<'a>(
    c: Compared<'a>,
    popped: Result<Popped, RefusedCall>,
) -> (Compared<'a>, BandPassActivityProfile) {
    match popped {
        Ok(Popped::Ready(r, p)) => (with_region(c.word(0), r), p),
        Ok(Popped::Held(p)) => (c.word(1), p),
        Ok(Popped::Empty(p)) => (c.word(2), p),
        Err(refused) => (
            c.word(3).word(u64::from(refused.refusal.number())),
            refused.profile,
        ),
    }
}

fn with_region<'a>(c: Compared<'a>, r: ActivityProfileRegion) -> Compared<'a> {
    c.word(u64::from(r.contig))
        .word(u64::from(r.start))
        .word(u64::from(r.end))
        .word(u64::from(r.is_active))
        .word(u64::from(r.padded_start))
        .word(u64::from(r.padded_end))
        .word(u64::from(r.extension))
        .double(r.peak)
        .word(u64::from(r.peak_pos))
}

fn with_record<'a>(c: Compared<'a>, p: BandPassActivityProfile) -> Compared<'a> {
    c.word(u64::from(p.contig))
        .word(u64::from(p.contig_len))
        .word(u64::from(p.max_prob_propagation_distance))
        .double(p.active_prob_threshold)
        .word(u64::from(p.filter_size))
        .word(u64::from(p.region_start))
        .word(u64::from(p.last_input_pos))
        .word(u64::from(p.count))
}

fn record_at(words: &[u64], at: usize) -> BandPassActivityProfile {
    BandPassActivityProfile {
        contig: number_at(words, at),
        contig_len: number_at(words, at.wrapping_add(1)),
        max_prob_propagation_distance: number_at(words, at.wrapping_add(2)),
        active_prob_threshold: double_at(words, at.wrapping_add(3)),
        filter_size: number_at(words, at.wrapping_add(4)),
        region_start: number_at(words, at.wrapping_add(5)),
        last_input_pos: number_at(words, at.wrapping_add(6)),
        count: number_at(words, at.wrapping_add(7)),
    }
}

// contig, position, probability, original probability, 0 for plain evidence or the clip count + 1.
pub(crate) fn state_at(words: &[u64], at: usize) -> ActivityProfileState {
    ActivityProfileState {
        contig: number_at(words, at),
        pos: GenomePosition(number_at(words, at.wrapping_add(1))),
        active_prob: double_at(words, at.wrapping_add(2)),
        original_active_prob: double_at(words, at.wrapping_add(3)),
        evidence: evidence_of(word_at(words, at.wrapping_add(4))),
    }
}

fn evidence_of(w: u64) -> ActivityEvidence {
    if w == 0 {
        return ActivityEvidence::Plain;
    }
    ActivityEvidence::HighQualitySoftClips {
        clip_bases: ((w - 1) % 0x1_0000_0000) as u32,
    }
}
