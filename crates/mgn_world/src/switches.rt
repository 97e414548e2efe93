//! The steps of a switch to another set.

ghost use Rattle.std.specs.Prelude.{◌≡◌, ◌<◌, OnOk};
ghost use Rattle.mgn_world.specs.declared.phases.Phase.TheVariants.{Gathered};
ghost use Rattle.mgn_world.specs.Phases.{Gathering as AnyGathering};
ghost use Rattle.mgn_world.specs.Standing.{Good};
ghost use Rattle.mgn_world.specs.World.{commits, gathers, phase_at, prepares};
ghost use Rattle.mgn_world.specs.Worlds.{IsSound, shown};

use crate::phases::{Gathering, Phase, set_phase, take_gathering};
use crate::state::{WorldState, session_at};
use mgn_book::Outcome;
use mgn_params::{ParamSet, Work, set_of};
use mgn_unit::PreparedUnits;
use std::alloc::{AllocError, Global};

impl WorldState {
    /// Gather: begins a switch with a copy of all nets. An error says that memory was refused.
    pub(crate) fn gather(
        &mut self,
        alloc: Global,
        place: usize,
        set: ParamSet,
    ) -> Result<(), AllocError>
        requires good { Good (shown self.old) }
        requires sound { IsSound self.old }
        requires place { place < 16 }
        ensures step { OnOk result (shown self.new ≡
            gathers (shown self.old) place set (phase_at (shown self.old) place)) }
        ensures sound { OnOk result (IsSound self.new) }
    {
        let Phase::Idle = &self.phases[place] else {
            return Ok(());
        };
        let gathering = Gathering::new(alloc, set, self.book.version(), self.book.rows())?;
        set_phase(&mut self.phases, place, Phase::Gathered(gathering));
        Ok(())
    }

    /// Prepare: works out what a unit requires under the gathered set. An error says that memory was refused.
    pub(crate) fn prepare(
        &mut self,
        alloc: Global,
        place: usize,
        unit: usize,
    ) -> Result<(), AllocError>
        requires good { Good (shown self.old) }
        requires sound { IsSound self.old }
        requires place { place < 16 }
        ensures step { OnOk result (shown self.new ≡
            prepares (shown self.old) place unit (phase_at (shown self.old) place)) }
        ensures sound { OnOk result (IsSound self.new) }
    {
        let Some(mut gathering) = take_gathering(&mut self.phases, place) else {
            return Ok(());
        };
        let old = set_of(&self.shelf, gathering.version);
        gathering.prepare(alloc, old, unit)?;
        set_phase(&mut self.phases, place, Phase::Gathered(gathering));
        Ok(())
    }

    /// The commit of a gathered set, which ends its call. An error says that memory was refused.
    pub(crate) fn commit_set(&mut self, alloc: Global, place: usize) -> Result<(), AllocError>
        requires good { Good (shown self.old) }
        requires sound { IsSound self.old }
        requires place { place < 16 }
        ensures step { OnOk result ((g : AnyGathering) → phase_at (shown self.old) place ≡ Gathered g →
            shown self.new ≡ commits (shown self.old) place (Gathered g)) }
        ensures sound { OnOk result (IsSound self.new) }
    {
        let Some(gathering) = take_gathering(&mut self.phases, place) else {
            return Ok(());
        };
        let (set, units) = gathering.into_parts();
        let mut prepared = PreparedUnits::new(alloc, units);
        let session = session_at(place);
        let number = self.book.calls(session) + 1;
        match self.book.commit_switch(
            alloc,
            session,
            number,
            set,
            &mut self.shelf,
            &mut prepared,
            &mut Work::new(),
        ) {
            Outcome::Done(..) => {}
            Outcome::Full => return Ok(()),
            Outcome::Memory => return Err(AllocError),
        }
        self.house()
    }
}
