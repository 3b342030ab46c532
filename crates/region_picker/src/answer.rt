// What the functions answer: 0, or the number of a refusal (a pop also answers `HELD` and `EMPTY`, and says it itself).
ghost use Rattle.genome.specs.Refusals.{outcome_of};
ghost use Rattle.region_picker.specs.Part.{Answers};

use genome::Refusal;

// Writes what a call answers to its place, and answers 0; or answers the refusal's number, and writes nothing.
pub(crate) fn write_answer<T: Copy>(answer: Result<T, Refusal>, place: &mut T) -> u32
    ensures { Answers (λ x. x) (outcome_of answer) place.old place.new result }
{
    match answer {
        Ok(x) => {
            *place = x;
            0
        }
        Err(why) => why.number(),
    }
}
