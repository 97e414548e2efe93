ghost use Rattle.std.specs.Prelude.{◌≡◌, None, Some, OnErr, OnOk};
ghost use Rattle.mgn_unit.specs.Rows.{Prices, nets_in};
ghost use Rattle.mgn_day.specs.Days.{nets_of, set_of};
ghost use Rattle.mgn_unit_desk.specs.UnitDesks.{IsAfter, IsMoved, SameMoves};

use crate::sight::Sight;
use mgn_day::Shows;
use mgn_desk::Desk;
use mgn_params::{ParamSet, Work};
use mgn_plan::UnitChange;
use mgn_pricing::moves_of;
use mgn_slots::{SlotNames, Stamp};
use mgn_unit::{Priced, Row};
use std::alloc::{AllocError, Global};
use std::marker::Model;

/// The desk of a margin unit under its own lock, with what shows where its nets stood in the book; without that it
/// counts as empty. The type says that a desk with a stamp has the nets and the set of the day that the stamp shows,
/// and all that it keeps is that of these. A call that has moved it takes the stamp away, until it knows which day it
/// is then of.
#[derive(Drop)]
pub struct UnitDesk<'a, T: Shows, J: SlotNames> {
    pub(crate) desk: Desk,
    pub(crate) at: Option<Stamp<'a, T, J>>,
    // The set of that day, if it was ever marked.
    pub(crate) set: Option<&'a ParamSet>,
}

impl<'a, T: Shows, J: SlotNames> Model for UnitDesk<'a, T, J> {
    ghost use Rattle.std.specs.Prelude.{ℕ, Option};
    ghost use Rattle.mgn_desk.specs.Desks.{DeskRows};
    ghost use Rattle.mgn_unit_desk.specs.UnitDesks.{IsInStep, IsSetAt};

    ghost Value = { DeskRows × Option (ℕ × T) };

    ghost view = { λ d. (d.desk, d.at) };

    ghost invariant = { λ d. IsInStep T.shown d.desk d.at × IsSetAt T.shown d.at d.set };
}

impl<'a, T: Shows, J: SlotNames> UnitDesk<'a, T, J> {
    /// The empty desk of a unit. It takes no memory.
    pub fn empty(unit: usize) -> UnitDesk<'a, T, J>
        ensures { result ≡ (record { unit = unit; marked = None }, None) }
    {
        UnitDesk {
            desk: Desk::empty(unit),
            at: None,
            set: None,
        }
    }

    /// The number of its unit.
    pub fn unit(&self) -> usize
        ensures { result ≡ self.now.0.unit }
    {
        self.desk.unit()
    }

    /// What shows where its nets stood in the book; none where it counts as empty.
    pub fn stamp(&self) -> &Option<Stamp<'a, T, J>>
        ensures { result.now ≡ self.now.1 }
    {
        &self.at
    }

    /// From now on it counts as empty.
    pub fn forget(&mut self)
        ensures { self.new ≡ (self.old.0, None) }
    {
        self.at = None;
    }

    /// Marks the desk with the nets that were looked at, unless it has them. An error says that memory was refused; the
    /// desk is then as it was.
    pub fn ready(&mut self, alloc: Global, sight: &Sight<'a, T, J>) -> Result<(), AllocError>
        requires unit { self.old.0.unit ≡ sight.now.0.unit }
        requires has { sight.now.1.1 ≡ None → self.old.1 ≡ Some sight.now.1.0 }
        ensures ready { OnOk result (self.new.1 ≡ Some sight.now.1.0) }
        ensures unit { self.new.0.unit ≡ self.old.0.unit }
        ensures refused { OnErr result (self.new ≡ self.old) }
    {
        let Some(copied) = &sight.nets else {
            return Ok(());
        };
        let nets = copied.each_ref();
        self.desk.mark(alloc, sight.version, sight.set, &nets)?;
        self.at = Some(sight.stamp.again());
        self.set = Some(sight.set);
        Ok(())
    }

    /// Moves the desk as the command changes its unit. Until it is settled or moved back it counts as empty.
    pub fn apply(&mut self, sight: &Sight<'a, T, J>)
        requires unit { self.old.0.unit ≡ sight.now.0.unit }
        requires has { self.old.1 ≡ Some sight.now.1.0 }
        ensures moved { IsMoved T.shown sight.now.0 sight.now.1.0.1 self.new.0 }
        ensures unit { self.new.0.unit ≡ self.old.0.unit }
        ensures loose { self.new.1 ≡ None }
    {
        self.at = None;
        self.desk.apply(sight.set, &moves_of(&sight.change.change), &mut Work::new());
    }

    /// Moves the desk back, after a command that came to nothing.
    pub fn take_back(&mut self, sight: &Sight<'a, T, J>)
        requires unit { self.old.0.unit ≡ sight.now.0.unit }
        requires moved { IsMoved T.shown sight.now.0 sight.now.1.0.1 self.old.0 }
        ensures back { self.new.1 ≡ Some sight.now.1.0 }
        ensures unit { self.new.0.unit ≡ self.old.0.unit }
    {
        self.desk.take_back(sight.set, &moves_of(&sight.change.change), &mut Work::new());
        self.at = Some(sight.stamp.again());
        self.set = Some(sight.set);
    }

    /// The desk that has moved is of the day that a stamp shows.
    pub fn settle(&mut self, sight: &Sight<'a, T, J>, stamp: Stamp<'a, T, J>)
        requires unit { self.old.0.unit ≡ sight.now.0.unit }
        requires moved { IsMoved T.shown sight.now.0 sight.now.1.0.1 self.old.0 }
        requires follows { IsAfter T.shown sight.now.0 sight.now.1.0.1 stamp.1 }
        ensures stamp { self.new.1 ≡ Some stamp.entry }
        ensures desk { self.new.0 ≡ self.old.0 }
    {
        self.at = Some(stamp);
        self.set = Some(sight.set);
    }

    /// What the unit requires after a change that moves its nets as the desk has moved, where its row has the nets that
    /// were looked at.
    pub fn priced(&self, sight: &Sight<'a, T, J>, now: &UnitChange, row: &Row) -> Priced
        requires moved { IsMoved T.shown sight.now.0 sight.now.1.0.1 self.now.0 }
        requires same { SameMoves now.now.change sight.now.0.change }
        requires row { nets_in row.now ≡ nets_of (T.shown sight.now.1.0.1) sight.now.0.unit }
        ensures { Prices (set_of (T.shown sight.now.1.0.1)) now.now.change row.now result }
    {
        self.desk.requirements()
    }
}
