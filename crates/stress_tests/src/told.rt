//! What a session was answered.

use mgn_machine::Answer;
use mgn_wire::{LineReply, reply_text};
use std::alloc::Global;

/// The text of all that a session was answered, a line each, with the places of these. What had no place stands apart.
#[derive(Drop)]
pub(crate) struct Told {
    pub(crate) places: Vec<u64>,
    pub(crate) text: Vec<u8>,
    pub(crate) unplaced: Vec<u8>,
}

impl Told {
    /// Nothing yet.
    pub(crate) fn nothing(alloc: Global) -> Told {
        Told {
            places: Vec::new(alloc),
            text: Vec::new(alloc),
            unplaced: Vec::new(alloc),
        }
    }

    /// Takes the next answer down. Where memory is wanting a line or a place is missing, which the replay finds.
    pub(crate) fn hear(&mut self, answer: Answer) {
        let Some(place) = answer.place else {
            let _ = reply_text(&LineReply::Answered(answer), &mut self.unplaced);
            return;
        };
        let _ = self.places.push(place);
        let _ = reply_text(&LineReply::Answered(answer), &mut self.text);
    }
}
