// Answers of the kernel's functions and of the making.
ghost use Rattle.std.specs.Prelude.{◌≡◌};
ghost use Rattle.replay_making.specs.Params.{params_of};

use activity_profile::BandPassActivityProfile;
use answer_list::{Compared, double_at, doubles_from, filled, length_at, number_at, word_at};
use band_pass_kernel::BandPassActivityProfileParams;
use std::num::f64_to_bits_with_nan;

// mean, sd, x; the density.
pub(crate) fn normal_distribution(words: &[u64]) -> bool {
    let r = band_pass_kernel::normal_distribution(
        double_at(words, 0),
        double_at(words, 1),
        double_at(words, 2),
    );
    Compared::starting(words, 3).double(r).whole()
}

// filter size, sigma, length; the entries.
pub(crate) fn make_gaussian_kernel(words: &[u64]) -> bool {
    let mut room = [0.0f64; 1024];
    let kernel = &mut room[..length_at(words, 2)];
    band_pass_kernel::make_gaussian_kernel(kernel, number_at(words, 0), double_at(words, 1));
    Compared::starting(words, 3).doubles(kernel).whole()
}

// least, length, entries; the size.
pub(crate) fn adaptive_filter_size(words: &[u64]) -> bool {
    let n = length_at(words, 1);
    let kernel = doubles_from(words, 2);
    let r = band_pass_kernel::adaptive_filter_size(&kernel[..n], double_at(words, 0));
    Compared::starting(words, 2 + n).word(r as u64).whole()
}

// contig, contig length, distance, threshold, max filter, sigma, adaptive, fill, the two buffers' lengths; the refusal's number or 0;
// where 0, the filter size, the kernel's length and entries; the two buffers after the call.
pub(crate) fn making(words: &[u64]) -> bool {
    let mut full_room = filled(word_at(words, 7));
    let mut narrow_room = filled(word_at(words, 7));
    let full = &mut full_room[..length_at(words, 8)];
    let narrow = &mut narrow_room[..length_at(words, 9)];
    let params = params_of(words);
    let made = profile_record::new(
        number_at(words, 0),
        number_at(words, 1),
        params,
        full,
        narrow,
    );
    let c = Compared::starting(words, 10);
    let compared = match made {
        Ok(p) => with_profile(c, p, params, full, narrow),
        Err(why) => c.word(u64::from(why.number())),
    };
    compared.doubles(full).doubles(narrow).whole()
}

// With the record that was made compared, which is as the words ask and empty, and its kernel. Field by field, and not by a
// derived equality: the threshold is compared by its bits, so that NaN is the same as NaN.
fn with_profile<'a>(
    c: Compared<'a>,
    p: BandPassActivityProfile,
    params: BandPassActivityProfileParams,
    full: &[f64],
    narrow: &[f64],
) -> Compared<'a> {
    let words = c.words;
    let kernel = params.normalized_kernel(p.filter_size, full, narrow);
    let fresh = (p.contig == number_at(words, 0))
        & (p.contig_len == number_at(words, 1))
        & (p.max_prob_propagation_distance == number_at(words, 2))
        & (f64_to_bits_with_nan(p.active_prob_threshold) == word_at(words, 3))
        & (p.region_start == 0)
        & (p.last_input_pos == 0)
        & (p.count == 0);
    c.fact(fresh)
        .word(0)
        .word(u64::from(p.filter_size))
        .word(kernel.len() as u64)
        .doubles(kernel)
}

// distance, threshold, max filter, sigma and adaptive, from word 2 on.
#[tactic(auto, unfolding(crate::specs::Params::params_of))]
pub fn params_of(words: &[u64]) -> BandPassActivityProfileParams
    ensures { result ≡ params_of words.now }
{
    BandPassActivityProfileParams {
        max_prob_propagation_distance: number_at(words, 2),
        active_prob_threshold: double_at(words, 3),
        max_filter_size: number_at(words, 4),
        sigma: double_at(words, 5),
        adaptive_filter_size: word_at(words, 6) == 1,
    }
}
