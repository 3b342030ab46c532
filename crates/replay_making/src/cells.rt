// Answers of the number of cells that a maker must provide.
use answer_list::{Compared, number_at};

// max region size, distance, filter size, contig length; the refusal's number or 0; where 0, the cells.
pub(crate) fn cells_needed(words: &[u64]) -> bool {
    let needed = profile_record::cells_needed(
        number_at(words, 0),
        number_at(words, 1),
        number_at(words, 2),
        number_at(words, 3),
    );
    let c = Compared::starting(words, 4);
    // Written out here and in the other crates: a helper for all of them would be public, take what stands in the first arm as
    // a closure, and require that it can be called. No public function has a `requires`.
    match needed {
        Ok(n) => c.word(0).word(u64::from(n)).whole(),
        Err(why) => c.word(u64::from(why.number())).whole(),
    }
}
