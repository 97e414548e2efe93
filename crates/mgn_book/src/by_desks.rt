//! Commits whose units are priced by desks.

ghost use Rattle.std.specs.Prelude.{◌≡◌, ◌+◌, All, map};
ghost use Rattle.mgn_params.specs.Shelves.{set_at};
ghost use Rattle.mgn_machine.specs.History.{calls};
ghost use Rattle.mgn_plan.specs.Plans.{plan_of};
ghost use Rattle.mgn_pricing.specs.Given.{IsRight};
ghost use Rattle.mgn_book.specs.BookViews.{Stands};
ghost use Rattle.mgn_book.specs.DeskCommits.{CommittedBy, LeavesBy};

use crate::book::{Book, MOST_ENTRIES, Outcome};
use mgn_desk::Desk;
use mgn_ids::SessionNo;
use mgn_machine::{Command, Reply};
use mgn_params::{Shelf, Version, Work, set_of};
use mgn_pricing::{is_one_older, known_by};
use std::alloc::Global;

/// What a commit by desks did.
#[derive(Drop)]
pub enum Decision {
    /// One step, with the place of its entry in the history and its reply.
    Done(u64, Reply),
    /// Nothing: a desk is of a version before this one, which is in force.
    Stale(Version),
    /// Nothing: a unit that the command changes has no desk here that shows the nets of its row after the change.
    Apart,
    /// Nothing: the history is full.
    Full,
    /// Nothing: memory was refused.
    Memory,
}

impl Book {
    /// One step of the machine and its entry in the history, what its units require being told by their desks. These
    /// have been moved by the command's plan; none is needed for a command that has no plan. Nothing that units require
    /// is worked out in the book: no risk array is counted, by contract, and `tests/work_rule.py` lists who may start a
    /// count of its own. (Of these it reaches one alone: what a statement tells is worked out apart.)
    ///
    /// `Full` where the history has 1,000,000 entries. Else `Stale` where a desk is of a version before the one in
    /// force. Else `Apart` where a unit of the command's plan, as it is now, has no desk here, or one that is empty, of
    /// another version, or without the nets of the unit's row after the plan. Else `Memory` where memory is refused. In
    /// all these cases nothing has changed.
    pub fn commit<S: Shelf>(
        &mut self,
        alloc: Global,
        session: SessionNo,
        number: u64,
        command: &Command,
        shelf: &S,
        desks: &[&Desk],
        work: &mut Work,
    ) -> Decision
        requires stands { Stands (S.sets shelf.now) self.old }
        requires number { number ≡ calls session self.old.history + 1 }
        requires right { let version = self.old.book.state.version in
            All (λ d. IsRight (set_at (S.sets shelf.now) version) version d.now.marked) desks.now }
        ensures stands { Stands (S.sets shelf.now) self.new }
        ensures committed { CommittedBy (S.sets shelf.now) self.old session number command.now
            (map (λ d. d.now) desks.now) result self.new }
        ensures nets { let state = self.old.book.state in
            let set = set_at (S.sets shelf.now) state.version in
            LeavesBy set (plan_of set state command.now) self.old.book.rows result self.new.book.rows }
        ensures idle { work.new ≡ work.old }
    {
        if self.len() >= MOST_ENTRIES {
            return Decision::Full;
        }
        let version = self.version();
        if is_one_older(desks, version) {
            return Decision::Stale(version);
        }
        let set = set_of(shelf, version);
        let plan = self.plan(shelf, command);
        let Some(known) = known_by(desks, version, set, self.rows(), &plan) else {
            return Decision::Apart;
        };
        match self.commit_known(alloc, session, number, command, shelf, &plan, &known, work) {
            Outcome::Done(place, reply) => Decision::Done(place, reply),
            Outcome::Full => unreachable!(),
            Outcome::Memory => Decision::Memory,
        }
    }
}
