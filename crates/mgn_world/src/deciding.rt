//! The commit of a call.

ghost use Rattle.std.specs.Prelude.{◌≡◌, ◌<◌, OnOk};
ghost use Rattle.mgn_book.specs.BookViews.{Stands};
ghost use Rattle.mgn_world.specs.Decisions.{Decides, IsApplied};
ghost use Rattle.mgn_world.specs.declared.phases.Call.{Call as AnyCall};
ghost use Rattle.mgn_world.specs.declared.phases.Phase.TheVariants.{Applied};
ghost use Rattle.mgn_world.specs.Phases.{View as AnyView};
ghost use Rattle.mgn_world.specs.Standing.{Good};
ghost use Rattle.mgn_world.specs.World.{commits, is_done, phase_at};
ghost use Rattle.mgn_world.specs.Worlds.{IsSound, shown};

use crate::phases::{Phase, set_failed, set_settled};
use crate::state::{WorldState, session_at};
use mgn_book::Decision;
use mgn_machine::Reply;
use mgn_params::Work;
use mgn_plan::Plan;
use std::alloc::{AllocError, Global};

fn is_done(reply: &Reply) -> bool
    ensures { result ≡ is_done reply.now }
{
    matches!(reply, Reply::Done)
}

impl WorldState {
    // What the commit of an applied call comes to, by the desks of its plan's units.
    fn decide(&mut self, alloc: Global, place: usize) -> Decision
        requires good { Good (shown self.old) }
        requires sound { IsSound self.old }
        requires place { place < 16 }
        requires applied { IsApplied (phase_at (shown self.old) place) }
        ensures stands { Stands self.new.shelf self.new.book }
        ensures decided { (k : AnyCall) (l : AnyView) → phase_at (shown self.old) place ≡ Applied k l →
            Decides (shown self.old) place k l result self.old.book self.new.book }
        ensures shelf { self.new.shelf ≡ self.old.shelf }
        ensures desks { self.new.desks ≡ self.old.desks }
        ensures locks { self.new.locks ≡ self.old.locks }
        ensures phases { self.new.phases ≡ self.old.phases }
    {
        let Phase::Applied(call, view) = &self.phases[place] else {
            unreachable!();
        };
        let session = session_at(place);
        let number = self.book.calls(session) + 1;
        let command = &call.command;
        let mut work = Work::new();
        match &view.plan {
            Plan::Nothing => unreachable!(),
            Plan::One(change) => {
                let desks = [&self.desks[change.unit]];
                self.book.commit(
                    alloc,
                    session,
                    number,
                    command,
                    &self.shelf,
                    &desks,
                    &mut work,
                )
            }
            Plan::Two(giver, taker) => {
                let desks = [&self.desks[giver.unit], &self.desks[taker.unit]];
                self.book.commit(
                    alloc,
                    session,
                    number,
                    command,
                    &self.shelf,
                    &desks,
                    &mut work,
                )
            }
        }
    }

    // The commit of an applied call. An error says that memory was refused.
    fn commit_call(&mut self, alloc: Global, place: usize) -> Result<(), AllocError>
        requires good { Good (shown self.old) }
        requires sound { IsSound self.old }
        requires place { place < 16 }
        requires applied { IsApplied (phase_at (shown self.old) place) }
        ensures step { OnOk result (shown self.new ≡
            commits (shown self.old) place (phase_at (shown self.old) place)) }
        ensures sound { OnOk result (IsSound self.new) }
    {
        let reply = match self.decide(alloc, place) {
            Decision::Done(_, reply) => reply,
            Decision::Full => {
                set_failed(&mut self.phases, place, false);
                return Ok(());
            }
            Decision::Stale(_) => {
                set_failed(&mut self.phases, place, true);
                return Ok(());
            }
            Decision::Memory => return Err(AllocError),
            Decision::Apart => unreachable!(),
        };
        set_settled(&mut self.phases, place, is_done(&reply));
        self.house()
    }

    /// Commit: one step of the machine, by the desks of the plan's units; or a set comes into force, or is refused,
    /// which ends its call. An error says that memory was refused.
    pub(crate) fn commit(&mut self, alloc: Global, place: usize) -> Result<(), AllocError>
        requires good { Good (shown self.old) }
        requires sound { IsSound self.old }
        requires place { place < 16 }
        ensures step { OnOk result (shown self.new ≡
            commits (shown self.old) place (phase_at (shown self.old) place)) }
        ensures sound { OnOk result (IsSound self.new) }
    {
        match &self.phases[place] {
            Phase::Applied(..) => self.commit_call(alloc, place),
            Phase::Gathered(_) => self.commit_set(alloc, place),
            _ => Ok(()),
        }
    }
}
