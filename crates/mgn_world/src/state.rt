//! What is kept of a world of sessions, and its steps through the book.

ghost use Rattle.std.specs.Prelude.{◌≡◌, ◌+◌, ◌<◌, ◌≤◌, List, map, length, IfOk, OnOk};
ghost use Rattle.mgn_params.specs.Tables.{Tables};
ghost use Rattle.mgn_machine.specs.declared.request.Request.TheVariants.{Do};
ghost use Rattle.mgn_plan.specs.declared.plans.Plan.TheVariants.{Nothing};
ghost use Rattle.mgn_plan.specs.Plans.{plan_of};
ghost use Rattle.mgn_world.specs.DeskMoves.{AreRightDesks, desk_shown};
ghost use Rattle.mgn_world.specs.Standing.{Good};
ghost use Rattle.mgn_world.specs.World.{entered, finished, in_force, lengthened, opening};
ghost use Rattle.mgn_world.specs.Worlds.{IsSound, shown};

use crate::phases::{Phase, set_phase};
use crate::units::free;
use mgn_book::{Book, Decision};
use mgn_desk::Desk;
use mgn_ids::{MOST_SESSIONS, SessionNo};
use mgn_machine::Command;
use mgn_params::{ParamSet, SetList, Work};
use std::alloc::{AllocError, Global};

/// How many sessions there are.
const SESSIONS: usize = MOST_SESSIONS as usize;

/// The sets, the book, by unit a desk and the place of the session that holds it, and the phases of 16 sessions.
#[derive(Drop)]
pub(crate) struct WorldState {
    pub(crate) shelf: SetList,
    pub(crate) book: Book,
    pub(crate) desks: Vec<Desk>,
    pub(crate) locks: Vec<Option<usize>>,
    pub(crate) phases: Vec<Phase>,
}

impl WorldState {
    /// The world before its first step. An error says that memory was refused.
    pub(crate) fn new(alloc: Global, first: ParamSet) -> Result<WorldState, AllocError>
        ensures opening { IfOk result (λ w. shown w ≡ opening first) }
        ensures good { IfOk result (λ w. Good (shown w)) }
        ensures sound { IfOk result IsSound }
    {
        first.limits();
        let mut phases = Vec::with_capacity(alloc, SESSIONS)?;
        for _ in 0..SESSIONS {
            phases.push_reserved(Phase::Idle);
        }
        let shelf = SetList::new(alloc, first)?;
        let book = Book::new(alloc, &shelf);
        Ok(WorldState {
            shelf,
            book,
            desks: Vec::new(alloc),
            locks: Vec::new(alloc),
            phases,
        })
    }

    // A desk and a holder for each unit that was made, empty both. An error says that memory was refused.
    pub(crate) fn house(&mut self) -> Result<(), AllocError>
        ensures desks { OnOk result (map desk_shown self.new.desks.items ≡
            lengthened (length self.old.book.book.rows) (map desk_shown self.old.desks.items)) }
        ensures locks { OnOk result (self.new.locks.items ≡
            lengthened (length self.old.book.book.rows) self.old.locks.items) }
        ensures sound { OnOk result (AreRightDesks self.old.shelf self.old.desks.items →
            AreRightDesks self.old.shelf self.new.desks.items) }
        ensures grown { OnOk result (length self.old.desks.items ≤ length self.new.desks.items) }
        ensures shelf { self.new.shelf ≡ self.old.shelf }
        ensures book { self.new.book ≡ self.old.book }
        ensures phases { self.new.phases ≡ self.old.phases }
    {
        let units = self.book.rows().len();
        more_desks(&mut self.desks, units)?;
        more_locks(&mut self.locks, units)
    }

    /// One step of the machine for a command that changes no nets. A full history takes nothing. An error says that
    /// memory was refused.
    pub(crate) fn enter(
        &mut self,
        alloc: Global,
        place: usize,
        command: &Command,
    ) -> Result<(), AllocError>
        requires good { Good (shown self.old) }
        requires sound { IsSound self.old }
        requires place { place < 16 }
        requires planless { plan_of (in_force (shown self.old)) self.old.book.book.state command.now ≡ Nothing }
        ensures entered { OnOk result (shown self.new ≡ entered (shown self.old) place (Do command.now)) }
        ensures sound { OnOk result (IsSound self.new) }
    {
        let session = session_at(place);
        let number = self.book.calls(session) + 1;
        let mut work = Work::new();
        match self.book.commit(alloc, session, number, command, &self.shelf, &[], &mut work) {
            Decision::Done(..) => {}
            Decision::Full => return Ok(()),
            Decision::Memory => return Err(AllocError),
            Decision::Stale(_) | Decision::Apart => unreachable!(),
        }
        self.house()
    }

    /// Gives the units of a session back, and ends its call.
    pub(crate) fn finish(&mut self, place: usize)
        requires sound { IsSound self.old }
        requires place { place < 16 }
        ensures finished { shown self.new ≡ finished (shown self.old) place }
        ensures sound { IsSound self.new }
    {
        free(self.locks.as_mut_slice(), place);
        set_phase(&mut self.phases, place, Phase::Idle);
    }
}

/// The number of the session at a place.
pub(crate) fn session_at(place: usize) -> SessionNo
    requires { place < 16 }
    ensures { result ≡ place + 1 }
{
    SessionNo::new(place as u8 + 1)
}

// An empty desk for each unit that has none.
fn more_desks(desks: &mut Vec<Desk>, units: usize) -> Result<(), AllocError>
    ensures shown { OnOk result (map desk_shown desks.new.items ≡ lengthened units (map desk_shown desks.old.items)) }
    ensures grown { OnOk result (length desks.old.items ≤ length desks.new.items) }
    ensures sound { OnOk result ((sets : List Tables) → AreRightDesks sets desks.old.items → AreRightDesks sets desks.new.items) }
{
    for unit in desks.len()..units {
        desks.push(Desk::empty(unit))?;
    }
    Ok(())
}

// No holder for each unit that has no place for one.
fn more_locks(locks: &mut Vec<Option<usize>>, units: usize) -> Result<(), AllocError>
    ensures { OnOk result (locks.new.items ≡ lengthened units locks.old.items) }
{
    for _ in locks.len()..units {
        locks.push(None)?;
    }
    Ok(())
}
