// Soft-clip counts.
use answer_list::{Compared, length_at, number_at, word_at};

// k, cigar[k], n, qualities[n]; the refusal's number or 0, and where 0 the count.
pub(crate) fn clip_count(words: &[u64]) -> bool {
    let k = length_at(words, 0);
    let cigar = at_each(words, 1, |w, i| number_at(w, i));
    let n = length_at(words, 1 + k);
    let qualities = at_each(words, 2 + k, byte_at);
    let found = hq_soft_clip::count_high_quality_soft_clip_bases_rcm(&cigar[..k], &qualities[..n]);
    let c = Compared::starting(words, 2 + k + n);
    match found {
        Ok(count) => c.word(0).word(count).whole(),
        Err(why) => c.word(u64::from(why.number())).whole(),
    }
}

// What `read` answers at each place from `at` on. `number_at` comes in a closure: as a value, a function of another crate
// did not prove.
pub(crate) fn at_each<T, F: Fn(&[u64], usize) -> T>(words: &[u64], at: usize, read: F) -> [T; 1024]
    requires { F.IsAlwaysCallable read }
{
    std::array::from_fn(|i| read(words, at.wrapping_add(i)))
}

// The low byte of word i.
pub(crate) fn byte_at(words: &[u64], i: usize) -> u8 {
    (word_at(words, i) % 256) as u8
}
