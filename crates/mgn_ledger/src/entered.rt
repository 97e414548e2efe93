//! What a call does under the lock.

use crate::image::Image;
use mgn_ids::SessionNo;
use mgn_machine::{Answer, Refusal, Reply};
use mgn_slots::{SlotNames, Stamp};
use thiserror::Error;

/// What a commit under the lock did.
#[derive(Drop)]
pub enum Entered<'a, T: Image, J: SlotNames> {
    /// One step of the machine: the place of its entry, its reply, and what shows the day after it.
    Placed(u64, Reply, Stamp<'a, T, J>),
    /// Nothing that the pass knows of: `Memory`, `Full` or `Broken`.
    Unplaced(Refusal),
}

impl<'a, T: Image, J: SlotNames> Entered<'a, T, J> {
    ghost use Rattle.std.specs.Prelude.{◌≡◌};
    ghost use Rattle.mgn_ledger.specs.Ledgers.{entered_answer};

    /// What the call is answered.
    pub fn into_answer(self) -> Answer
        ensures { result ≡ entered_answer self.entry }
    {
        match self {
            Entered::Placed(place, reply, _) => Answer {
                place: Some(place),
                reply,
            },
            Entered::Unplaced(why) => Answer::refused(why),
        }
    }
}

/// Why an audit fails.
#[derive(Clone, Copy, PartialEq, Eq, Debug, Error)]
pub enum AuditFault {
    /// The passes are not those that were made, each once.
    #[error("the passes are not those that were made, each once")]
    Passes,
    /// The history has not just the calls of the pass of this session, the lowest of which that holds.
    #[error("the history has not just the calls of session {}", .0.number())]
    Unmatched(SessionNo),
}
