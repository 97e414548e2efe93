//! The steps of a call.

ghost use Rattle.std.specs.Prelude.{◌≡◌, ◌<◌, ◌∷◌, [], if◌then◌else◌, All, IfOk, OnOk, length, map};
ghost use Rattle.mgn_world.specs.declared.phases.Phase.TheVariants.{Ended, Held};
ghost use Rattle.mgn_world.specs.Standing.{Good};
ghost use Rattle.mgn_world.specs.World.{applies, backs, begins, ends, looks, marks, phase_at, plan_units};
ghost use Rattle.mgn_world.specs.Worlds.{IsSound, seen_in, shown};

use crate::phases::{Call, Phase, Seen, View, set_applied, set_phase};
use crate::state::WorldState;
use crate::unit_desks::{apply, are_of, mark_first, take_back};
use crate::units::CommandUnits;
use mgn_machine::Command;
use mgn_plan::{Plan, UnitChange};
use mgn_unit::Row;
use std::alloc::{AllocError, Global};

// A unit with its nets.
fn see_one(alloc: Global, rows: &[Row], change: &UnitChange) -> Result<Seen, AllocError>
    requires { change.now.unit < length rows.now }
    ensures { IfOk result (λ one. one ≡ seen_in rows.now change.now.unit) }
{
    Ok(Seen {
        unit: change.unit,
        nets: rows[change.unit].copy_nets(alloc)?,
    })
}

// Two units with their nets.
fn see_both(
    alloc: Global,
    rows: &[Row],
    first: &UnitChange,
    second: &UnitChange,
) -> Result<Vec<Seen>, AllocError>
    requires first { first.now.unit < length rows.now }
    requires second { second.now.unit < length rows.now }
    ensures { IfOk result (λ seen. seen.items
        ≡ seen_in rows.now first.now.unit ∷ seen_in rows.now second.now.unit ∷ []) }
{
    let mut seen = Vec::with_capacity(alloc, 2)?;
    seen.push_reserved(see_one(alloc, rows, first)?);
    seen.push_reserved(see_one(alloc, rows, second)?);
    Ok(seen)
}

// The units of a plan with their nets, in order of their numbers.
fn see(alloc: Global, rows: &[Row], plan: &Plan) -> Result<Vec<Seen>, AllocError>
    requires { All (λ u. u < length rows.now) (plan_units plan.now) }
    ensures { IfOk result (λ seen. seen.items ≡ map (seen_in rows.now) (plan_units plan.now)) }
{
    match plan {
        Plan::Nothing => Ok(Vec::new(alloc)),
        Plan::One(change) => {
            let mut seen = Vec::with_capacity(alloc, 1)?;
            seen.push_reserved(see_one(alloc, rows, change)?);
            Ok(seen)
        }
        Plan::Two(giver, taker) => {
            if taker.unit < giver.unit {
                see_both(alloc, rows, taker, giver)
            } else {
                see_both(alloc, rows, giver, taker)
            }
        }
    }
}

// The phase of a failed call once its plan is taken back.
fn after_back(call: Call, again: bool) -> Phase
    ensures { result ≡ (if again then Held call else Ended call) }
{
    if again {
        Phase::Held(call)
    } else {
        Phase::Ended(call)
    }
}

impl WorldState {
    /// Begin: the units of the command become the session's own, if none of them is held. A command without units
    /// commits at once. An error says that memory was refused.
    pub(crate) fn begin(
        &mut self,
        alloc: Global,
        place: usize,
        command: Command,
    ) -> Result<(), AllocError>
        requires good { Good (shown self.old) }
        requires sound { IsSound self.old }
        requires place { place < 16 }
        ensures step { OnOk result (shown self.new ≡
            begins (shown self.old) place command (phase_at (shown self.old) place)) }
        ensures sound { OnOk result (IsSound self.new) }
    {
        let Phase::Idle = &self.phases[place] else {
            return Ok(());
        };
        let units = CommandUnits::of(&self.book, &command);
        if let CommandUnits::Nothing = units {
            return self.enter(alloc, place, &command);
        }
        if units.are_free(self.locks.as_slice()) {
            units.take(self.locks.as_mut_slice(), place);
            let call = Call {
                command,
                began: self.book.version(),
                looks: 0,
            };
            set_phase(&mut self.phases, place, Phase::Held(call));
        }
        Ok(())
    }

    /// Look: takes version, plan and nets. A command without a plan commits at once, and its call is over. An error
    /// says that memory was refused.
    pub(crate) fn look(&mut self, alloc: Global, place: usize) -> Result<(), AllocError>
        requires good { Good (shown self.old) }
        requires sound { IsSound self.old }
        requires place { place < 16 }
        ensures step { OnOk result (shown self.new ≡ looks (shown self.old) place (phase_at (shown self.old) place)) }
        ensures sound { OnOk result (IsSound self.new) }
    {
        let Phase::Held(call) = &self.phases[place] else {
            return Ok(());
        };
        let call = *call;
        let plan = self.book.plan(&self.shelf, &call.command);
        if let Plan::Nothing = plan {
            self.enter(alloc, place, &call.command)?;
            self.finish(place);
            return Ok(());
        }
        let seen = see(alloc, self.book.rows(), &plan)?;
        let version = self.book.version();
        // (a call has looked no more often than versions came, and these are few)
        let _ = version.number();
        let looked = Call {
            command: call.command,
            began: call.began,
            looks: call.looks + 1,
        };
        let view = View {
            version,
            plan,
            seen,
        };
        set_phase(&mut self.phases, place, Phase::Looked(looked, view));
        Ok(())
    }

    /// Mark: sets the first desk of the plan that is not of the looked version to it. An error says that memory was
    /// refused.
    pub(crate) fn mark(&mut self, alloc: Global, place: usize) -> Result<(), AllocError>
        requires good { Good (shown self.old) }
        requires sound { IsSound self.old }
        requires place { place < 16 }
        ensures step { OnOk result (shown self.new ≡ marks (shown self.old) (phase_at (shown self.old) place)) }
        ensures sound { OnOk result (IsSound self.new) }
    {
        let Phase::Looked(_, view) = &self.phases[place] else {
            return Ok(());
        };
        mark_first(
            self.desks.as_mut_slice(),
            alloc,
            &self.shelf,
            view.version,
            view.seen.as_slice(),
        )
    }

    /// Apply: where all desks of the plan are of the looked version, they move as the plan says.
    pub(crate) fn apply(&mut self, place: usize)
        requires good { Good (shown self.old) }
        requires sound { IsSound self.old }
        requires place { place < 16 }
        ensures step { shown self.new ≡ applies (shown self.old) place (phase_at (shown self.old) place) }
        ensures sound { IsSound self.new }
    {
        let Phase::Looked(_, view) = &self.phases[place] else {
            return;
        };
        if !are_of(self.desks.as_slice(), view.version, view.seen.as_slice()) {
            return;
        }
        apply(
            self.desks.as_mut_slice(),
            &self.shelf,
            view.version,
            &view.plan,
        );
        set_applied(&mut self.phases, place);
    }

    /// Back: takes the plan back from its desks.
    pub(crate) fn back(&mut self, place: usize)
        requires good { Good (shown self.old) }
        requires sound { IsSound self.old }
        requires place { place < 16 }
        ensures step { shown self.new ≡ backs (shown self.old) place (phase_at (shown self.old) place) }
        ensures sound { IsSound self.new }
    {
        let Phase::Failed(call, view, again) = &self.phases[place] else {
            return;
        };
        let next = after_back(*call, *again);
        take_back(
            self.desks.as_mut_slice(),
            &self.shelf,
            view.version,
            &view.plan,
        );
        set_phase(&mut self.phases, place, next);
    }

    /// End: the units are free, and the session idle.
    pub(crate) fn end(&mut self, place: usize)
        requires good { Good (shown self.old) }
        requires sound { IsSound self.old }
        requires place { place < 16 }
        ensures step { shown self.new ≡ ends (shown self.old) place (phase_at (shown self.old) place) }
        ensures sound { IsSound self.new }
    {
        if matches!(&self.phases[place], Phase::Ended(_)) {
            self.finish(place);
        }
    }
}
