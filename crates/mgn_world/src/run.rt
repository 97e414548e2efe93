//! A whole list of steps.

ghost use Rattle.std.specs.Prelude.{◌≡◌, IfOk, OnOk, map};
ghost use Rattle.mgn_world.specs.Claims.{IsLimited, IsReached, IsReplayed};
ghost use Rattle.mgn_world.specs.DeskMoves.{AreRightDesks, desk_shown};
ghost use Rattle.mgn_world.specs.Standing.{Good};
ghost use Rattle.mgn_world.specs.World.{desk_at, next, opening, run};
ghost use Rattle.mgn_world.specs.Worlds.{AreRows, IsSound, required, shown};

use crate::phases::{Deed, Step};
use crate::state::WorldState;
use mgn_book::Book;
use mgn_desk::Desk;
use mgn_params::ParamSet;
use mgn_unit::Priced;
use std::alloc::{AllocError, Global};
use std::marker::Model;

impl Step {
    // What every step meets: no work, a fact for callers.
    fn limits(&self)
        ensures { IsLimited self.now.deed }
    {
        if let Deed::Gather(set) = &self.deed {
            set.limits();
        }
    }
}

impl WorldState {
    // One step. Where it is not the next one of its session's call, nothing changes. An error says that memory was
    // refused.
    fn step(&mut self, alloc: Global, step: Step) -> Result<(), AllocError>
        requires good { Good (shown self.old) }
        requires sound { IsSound self.old }
        ensures limited { IsLimited step.deed }
        ensures next { OnOk result (shown self.new ≡ next (shown self.old) step) }
        ensures sound { OnOk result (IsSound self.new) }
    {
        step.limits();
        let Some(place) = step.session.checked_sub(1) else {
            return Ok(());
        };
        if place >= self.phases.len() {
            return Ok(());
        }
        match step.deed {
            Deed::Begin(command) => self.begin(alloc, place, command),
            Deed::Look => self.look(alloc, place),
            Deed::Mark => self.mark(alloc, place),
            Deed::Apply => {
                self.apply(place);
                Ok(())
            }
            Deed::Commit => self.commit(alloc, place),
            Deed::Back => {
                self.back(place);
                Ok(())
            }
            Deed::End => {
                self.end(place);
                Ok(())
            }
            Deed::Gather(set) => self.gather(alloc, place, set),
            Deed::Prepare(unit) => self.prepare(alloc, place, unit),
        }
    }
}

/// The world after a list of steps, as the definition has it. The type says that the rows of its book are those of its
/// state, and that each desk has the number of its unit, and what its own nets require under the set of its version.
#[derive(Drop)]
pub struct World {
    kept: WorldState,
}

impl Model for World {
    ghost use Rattle.mgn_world.specs.World.{World};
    ghost use Rattle.mgn_world.specs.Worlds.{IsSound, shown};

    ghost Value = { World };

    ghost view = { λ w. shown w.kept };

    ghost invariant = { λ w. IsSound w.kept };
}

impl World {
    /// The world after these steps of any sessions, in this order, from the first set on. An error says that memory was
    /// refused. Every law of this crate holds of it.
    pub fn run(alloc: Global, first: ParamSet, steps: Vec<Step>) -> Result<World, AllocError>
        ensures run { IfOk result (λ w. w ≡ run (opening first) steps.items) }
        ensures reached { IfOk result IsReached }
        ensures replayed { IfOk result IsReplayed }
    {
        first.limits();
        let mut kept = WorldState::new(alloc, first)?;
        for step in steps {
            kept.step(alloc, step)?;
        }
        Ok(World { kept })
    }

    /// The book, with a row for each unit that was made, which is that of its lots, holds and collateral under the set
    /// in force.
    pub fn book(&self) -> &Book
        ensures state { result.now.book.state ≡ self.now.state }
        ensures history { result.now.history ≡ self.now.history }
        ensures rows { AreRows self.now result.now.book.rows }
    {
        &self.kept.book
    }

    /// The desks, by the numbers of their units.
    pub fn desks(&self) -> &[Desk]
        ensures shown { map desk_shown result.now ≡ self.now.desks }
        ensures right { AreRightDesks self.now.sets result.now }
    {
        self.kept.desks.as_slice()
    }

    /// What the four portfolios of the desk of a unit require; none where it is empty, or there is no such unit.
    pub fn requirements(&self, unit: usize) -> Option<Priced>
        ensures { result ≡ required self.now.sets (desk_at self.now unit) }
    {
        let desk = self.kept.desks.get(unit)?;
        desk.version()?;
        Some(desk.requirements())
    }
}
