ghost use Rattle.std.specs.Prelude.{◌≡◌, is_some, IsTrue};
ghost use Rattle.mgn_day.specs.Days.{version_of};
ghost use Rattle.mgn_unit_desk.specs.UnitDesks.{IsSight, SameMoves};

use mgn_day::Shows;
use mgn_params::{ParamSet, Version};
use mgn_plan::UnitChange;
use mgn_slots::{SlotNames, Stamp};
use mgn_unit::{Change, CopiedNets};
use std::marker::Model;

/// What a command changes in the row of a margin unit, whichever of its accounts the command names.
#[derive(Clone, Copy)]
pub struct UnitMove {
    /// The number of the unit.
    pub unit: usize,
    /// What changes in its row, in one contract.
    pub change: Change,
}

/// What a call looked at of one of its units: what its command changes there, the set in force, what shows the unit's
/// nets, and a copy of these, unless its desk has them. Contracts see the change, the stamp and the copy.
#[derive(Drop)]
pub struct Sight<'a, T: Shows, J: SlotNames> {
    pub(crate) change: UnitMove,
    pub(crate) version: Version,
    pub(crate) set: &'a ParamSet,
    pub(crate) stamp: Stamp<'a, T, J>,
    pub(crate) nets: Option<CopiedNets>,
}

impl<'a, T: Shows, J: SlotNames> Model for Sight<'a, T, J> {
    ghost use Rattle.std.specs.Prelude.{ℕ, Option};
    ghost use Rattle.mgn_nets.specs.Portfolios.{UnitNets};
    ghost use Rattle.mgn_unit_desk.specs.declared.sight.UnitMove.{UnitMove};
    ghost use Rattle.mgn_unit_desk.specs.UnitDesks.{IsSight};

    ghost Value = { UnitMove × ((ℕ × T) × Option UnitNets) };

    ghost view = { λ s. (s.change, (s.stamp, s.nets)) };

    ghost invariant = { λ s. IsSight T.shown s.change s.version s.set.now s.stamp s.nets };
}

impl<'a, T: Shows, J: SlotNames> Sight<'a, T, J> {
    /// What was looked at: a change of a unit, the version and the set of the day that a stamp shows, and a copy of the
    /// unit's nets on that day, unless its desk has them.
    pub fn new(
        change: UnitMove,
        version: Version,
        set: &'a ParamSet,
        stamp: Stamp<'a, T, J>,
        nets: Option<CopiedNets>,
    ) -> Sight<'a, T, J>
        requires { IsSight T.shown change version set.now stamp nets }
        ensures { result ≡ (change, (stamp.entry, nets)) }
    {
        Sight {
            change,
            version,
            set,
            stamp,
            nets,
        }
    }

    /// Whether a change is of the unit that was looked at and moves its nets by as much.
    pub fn moves_same(&self, now: &UnitChange) -> bool
        ensures unit { IsTrue result → now.now.unit ≡ self.now.0.unit }
        ensures moves { IsTrue result → SameMoves now.now.change self.now.0.change }
    {
        let (seen, moves) = (&self.change.change, &now.change);
        now.unit == self.change.unit
            && moves.contract == seen.contract
            && moves.lots.quantity == seen.lots.quantity
            && moves.buys.quantity == seen.buys.quantity
            && moves.sales.quantity == seen.sales.quantity
            && moves.all.quantity == seen.all.quantity
    }

    /// The version that was in force.
    pub fn version(&self) -> Version
        ensures { result ≡ version_of (T.shown self.now.1.0.1) }
    {
        self.version
    }

    /// What shows the day that was looked at.
    pub fn stamp(&self) -> &Stamp<'a, T, J>
        ensures { result.now ≡ self.now.1.0 }
    {
        &self.stamp
    }

    /// Whether it has a copy of the nets, with which the desk is marked.
    pub fn is_copied(&self) -> bool
        ensures { result ≡ is_some self.now.1.1 }
    {
        self.nets.is_some()
    }
}
