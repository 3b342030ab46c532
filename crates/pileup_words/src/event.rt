// The reader of a stream's words: each is an event, by its kind.
ghost use Rattle.std.specs.Prelude.{◌≡◌};
ghost use Rattle.pileup_words.specs.Events.{event_of};

use crate::{FIELD, KIND, StreamEvent};

// The event that a word is, whatever came before it, by the numbers that document 01 gives the kinds. The function has the
// definition's name, which a `From` would hide.
#[tactic(auto, unfolding(crate::specs::Events::event_of))]
pub fn event_of(w: u32) -> StreamEvent
    ensures { result ≡ event_of w }
{
    match w / KIND {
        0 => StreamEvent::Locus { position: w % KIND },
        1 => StreamEvent::Observation { word: w },
        2 => StreamEvent::Pop { value: w % KIND },
        _ => StreamEvent::Setting {
            field: w % KIND / FIELD,
            value: w % FIELD,
        },
    }
}
