// Runs: a making, and a list of calls on the profile, each of which gets the record and the cells as the call before left them.
use crate::call;
use activity_profile::BandPassActivityProfile;
use answer_list::{Compared, filled, length_at, number_at, word_at};

// Room for the kernel of a run; a run whose kernel needs more differs.
const KERNEL: usize = 64;

// contig, contig length, distance, threshold, max filter, sigma, adaptive, fill, n, how many calls; then each call.
pub(crate) fn run(words: &[u64]) -> bool {
    let params = replay_making::params_of(words);
    let mut full = [0.0f64; KERNEL];
    let mut narrow = [0.0f64; KERNEL];
    let made = profile_record::new(
        number_at(words, 0),
        number_at(words, 1),
        params,
        &mut full,
        &mut narrow,
    );
    let Ok(p) = made else {
        return false;
    };
    let kernel = params.normalized_kernel(p.filter_size, &full, &narrow);
    let mut room = filled(word_at(words, 7));
    run_calls(words, p, kernel, &mut room[..length_at(words, 8)])
}

// The calls, from word 10 on.
fn run_calls(words: &[u64], p: BandPassActivityProfile, kernel: &[f64], cells: &mut [f64]) -> bool {
    let mut c = Compared::starting(words, 10);
    let mut profile = p;
    for _ in 0..word_at(words, 9) {
        (c, profile) = with_call(c, profile, kernel, cells);
    }
    c.whole()
}

// With one call compared: 0 and a state, with the refusal's number or 0; or 1 and the sizes of a pop, with its answer; then
// region start, last input, count and cells[n]. And the record that the call hands back. The kind stays a number: it is read
// here alone, each but 0 is a pop, and an enum with its conversion would be this test again.
fn with_call<'a>(
    c: Compared<'a>,
    p: BandPassActivityProfile,
    kernel: &[f64],
    cells: &mut [f64],
) -> (Compared<'a>, BandPassActivityProfile) {
    let words = c.words;
    let arguments = c.at.wrapping_add(1);
    let (called, after) = if word_at(words, c.at) == 0 {
        let added = profile_add::add(p, call::state_at(words, arguments), kernel, cells);
        call::with_added(behind(c, 6), added)
    } else {
        let popped = call::pop_at(words, arguments, p, cells);
        call::with_popped(behind(c, 5), popped)
    };
    let compared = called
        .word(u64::from(after.region_start))
        .word(u64::from(after.last_input_pos))
        .word(u64::from(after.count))
        .doubles(cells);
    (compared, after)
}

// Past n words, which are arguments.
fn behind<'a>(c: Compared<'a>, n: usize) -> Compared<'a> {
    Compared {
        at: c.at.wrapping_add(n),
        ..c
    }
}
