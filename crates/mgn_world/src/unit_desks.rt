//! The desks of a run, as the steps of a call look at them and move them.

ghost use Rattle.std.specs.Prelude.{◌≡◌, ◌<◌, All, None, Some, length, map, slice_index_or, slice_set, OnOk};
ghost use Rattle.mgn_params.specs.Shelves.{set_at};
ghost use Rattle.mgn_nets.specs.Portfolios.{AreUnitNets};
ghost use Rattle.mgn_desk.specs.Portfolios.{opposite};
ghost use Rattle.mgn_pricing.specs.Desks.{moves_of};
ghost use Rattle.mgn_world.specs.DeskMoves.{AreRightDesks, AreReadyFor, CanGiveBack, IsReadyFor, desk_shown};
ghost use Rattle.mgn_world.specs.declared.phases.Seen.{Seen as SeenNets};
ghost use Rattle.mgn_world.specs.World.{are_of, desks_with, desks_without, mark_first, planned_desks, unplanned_desks};

use crate::phases::Seen;
use mgn_desk::Desk;
use mgn_params::{SetList, Version, Work, set_of};
use mgn_plan::{Plan, UnitChange};
use mgn_pricing::{is_of, moves_of};
use std::alloc::{AllocError, Global};

/// Whether the desks of all units that were looked at are of a version.
pub(crate) fn are_of(desks: &[Desk], version: Version, seen: &[Seen]) -> bool
    requires { All (λ (x : SeenNets). x.unit < length desks.now) seen.now }
    ensures { result ≡ are_of version (map desk_shown desks.now) seen.now }
{
    for one in seen {
        if !is_of(&desks[one.unit], version) {
            return false;
        }
    }
    true
}

// Marks the desk of a unit with the nets that were looked at.
fn mark(
    desks: &mut [Desk],
    alloc: Global,
    shelf: &SetList,
    version: Version,
    seen: &Seen,
) -> Result<(), AllocError>
    requires desks { AreRightDesks shelf.now desks.old }
    requires version { version < length shelf.now }
    requires unit { seen.now.unit < length desks.old }
    requires nets { AreUnitNets (set_at shelf.now version) seen.now.nets }
    ensures marked { OnOk result (map desk_shown desks.new ≡
        slice_set (map desk_shown desks.old) seen.now.unit (Some record { version = version; nets = seen.now.nets })) }
    ensures desks { OnOk result (AreRightDesks shelf.now desks.new) }
    ensures long { length desks.new ≡ length desks.old }
{
    let set = set_of(shelf, version);
    let nets = seen.nets.each_ref();
    desks[seen.unit].mark(alloc, version, set, &nets)
}

/// Marks the first desk, of those of the units that were looked at, that is not of the version. An error says that
/// memory was refused.
pub(crate) fn mark_first(
    desks: &mut [Desk],
    alloc: Global,
    shelf: &SetList,
    version: Version,
    seen: &[Seen],
) -> Result<(), AllocError>
    requires desks { AreRightDesks shelf.now desks.old }
    requires version { version < length shelf.now }
    requires there { All (λ (x : SeenNets). x.unit < length desks.old) seen.now }
    requires nets { All (λ (x : SeenNets). AreUnitNets (set_at shelf.now version) x.nets) seen.now }
    ensures marked { OnOk result (map desk_shown desks.new ≡ mark_first version seen.now (map desk_shown desks.old)) }
    ensures desks { OnOk result (AreRightDesks shelf.now desks.new) }
    ensures long { length desks.new ≡ length desks.old }
{
    for one in seen {
        if !is_of(&desks[one.unit], version) {
            return mark(desks, alloc, shelf, version, one);
        }
    }
    Ok(())
}

// Moves the desk of a unit as a change of its row says.
fn apply_one(desks: &mut [Desk], shelf: &SetList, version: Version, change: &UnitChange)
    requires desks { AreRightDesks shelf.now desks.old }
    requires version { version < length shelf.now }
    requires ready { IsReadyFor (set_at shelf.now version) version (moves_of change.now.change)
        (slice_index_or (map desk_shown desks.old) change.now.unit None) }
    ensures moved { map desk_shown desks.new ≡ desks_with change.now (map desk_shown desks.old) }
    ensures desks { AreRightDesks shelf.now desks.new }
    ensures long { length desks.new ≡ length desks.old }
{
    let set = set_of(shelf, version);
    desks[change.unit].apply(set, &moves_of(&change.change), &mut Work::new());
}

// Moves it back.
fn take_back_one(desks: &mut [Desk], shelf: &SetList, version: Version, change: &UnitChange)
    requires desks { AreRightDesks shelf.now desks.old }
    requires version { version < length shelf.now }
    requires ready { IsReadyFor (set_at shelf.now version) version (opposite (moves_of change.now.change))
        (slice_index_or (map desk_shown desks.old) change.now.unit None) }
    ensures moved { map desk_shown desks.new ≡ desks_without change.now (map desk_shown desks.old) }
    ensures desks { AreRightDesks shelf.now desks.new }
    ensures long { length desks.new ≡ length desks.old }
{
    let set = set_of(shelf, version);
    desks[change.unit].take_back(set, &moves_of(&change.change), &mut Work::new());
}

/// Moves the desks of a plan's units as the plan says.
pub(crate) fn apply(desks: &mut [Desk], shelf: &SetList, version: Version, plan: &Plan)
    requires desks { AreRightDesks shelf.now desks.old }
    requires version { version < length shelf.now }
    requires ready { AreReadyFor (set_at shelf.now version) version plan.now (map desk_shown desks.old) }
    ensures moved { map desk_shown desks.new ≡ planned_desks plan.now (map desk_shown desks.old) }
    ensures desks { AreRightDesks shelf.now desks.new }
    ensures long { length desks.new ≡ length desks.old }
{
    match plan {
        Plan::Nothing => {}
        Plan::One(change) => apply_one(desks, shelf, version, change),
        Plan::Two(giver, taker) => {
            apply_one(desks, shelf, version, giver);
            apply_one(desks, shelf, version, taker);
        }
    }
}

/// Takes a plan back from the desks of its units.
pub(crate) fn take_back(desks: &mut [Desk], shelf: &SetList, version: Version, plan: &Plan)
    requires desks { AreRightDesks shelf.now desks.old }
    requires version { version < length shelf.now }
    requires ready { CanGiveBack (set_at shelf.now version) version plan.now (map desk_shown desks.old) }
    ensures moved { map desk_shown desks.new ≡ unplanned_desks plan.now (map desk_shown desks.old) }
    ensures desks { AreRightDesks shelf.now desks.new }
    ensures long { length desks.new ≡ length desks.old }
{
    match plan {
        Plan::Nothing => {}
        Plan::One(change) => take_back_one(desks, shelf, version, change),
        Plan::Two(giver, taker) => {
            take_back_one(desks, shelf, version, taker);
            take_back_one(desks, shelf, version, giver);
        }
    }
}
