//! Switches of which it may be known what units require under the new set.

ghost use Rattle.std.specs.Prelude.{◌≡◌, ◌+◌, ◌<◌, ◌↔◌, length, IsTrue, Ok};
ghost use Rattle.mgn_params.specs.Shelves.{set_at};
ghost use Rattle.mgn_machine.specs.NewSet.{set_fits};
ghost use Rattle.mgn_machine.specs.declared.request.Request.TheVariants.{Switch};
ghost use Rattle.mgn_machine.specs.History.{calls};
ghost use Rattle.mgn_unit.specs.Amounts.{AreAllKnown, AreKnown, KeepsPlaces};
ghost use Rattle.mgn_register.specs.BookStates.{IsKept};
ghost use Rattle.mgn_book.specs.BookViews.{Committed, LeavesRows, Shelves, Stands};

use crate::book::{Book, MOST_ENTRIES, Outcome, count_place};
use crate::in_force::{SwitchCall, switch_known};
use mgn_ids::SessionNo;
use mgn_params::{ParamSet, Shelf, Work};
use mgn_register::StepFault;
use mgn_unit::Priced;
use std::alloc::Global;

impl Book {
    /// Whether a switch to a set would bring it into force: it is not refused, and the history has room for its entry.
    /// The set in force is given.
    pub fn takes(&self, old: &ParamSet, set: &ParamSet) -> bool
        requires { IsKept old.now self.now.book }
        ensures takes { IsTrue result ↔ (length self.now.history < 1000000) × (set_fits set.now self.now.book.state ≡ Ok tt) }
        ensures few { IsTrue result → self.now.book.state.version < 64 }
    {
        self.history.len() < MOST_ENTRIES && self.register.set_fits(old, set).is_ok()
    }

    /// What `commit_switch` does, for a set in which each contract keeps its place. What units require under it may be
    /// known, by their numbers; any other unit is worked out here. Where it is known of all units no risk array is
    /// read.
    pub fn commit_known_switch<S: Shelf>(
        &mut self,
        alloc: Global,
        session: SessionNo,
        number: u64,
        set: ParamSet,
        shelf: &mut S,
        known: &[Option<Priced>],
        work: &mut Work,
    ) -> Outcome
        requires stands { Stands (S.sets shelf.old) self.old }
        requires number { number ≡ calls session self.old.history + 1 }
        requires keeps { KeepsPlaces (set_at (S.sets shelf.old) self.old.book.state.version) set }
        requires known { AreKnown set self.old.book.rows known.now }
        ensures place { S.place shelf.new ≡ S.place shelf.old }
        ensures stands { Stands (S.sets shelf.new) self.new }
        ensures committed { Committed (S.sets shelf.new) self.old session number (Switch set) result self.new }
        ensures sets { Shelves (S.sets shelf.old) (Switch set) result (S.sets shelf.new) }
        ensures rows { LeavesRows self.old.book.rows result self.new.book.rows }
        ensures idle { AreAllKnown self.old.book.rows known.now → work.new ≡ work.old }
    {
        if MOST_ENTRIES <= self.history.len() {
            return Outcome::Full;
        }
        if self.history.reserve().is_err() {
            return Outcome::Memory;
        }
        let switched = switch_known(
            alloc,
            &mut self.register,
            &mut self.history,
            SwitchCall { session, number },
            set,
            shelf,
            known,
            work,
        );
        let reply = match switched {
            Ok(reply) => reply,
            Err(StepFault::Memory) => return Outcome::Memory,
            Err(StepFault::Refused(_)) => unreachable!(),
        };
        let own = count_place(session);
        self.counts[own] = number;
        Outcome::Done(self.history.len() as u64, reply)
    }
}
