ghost use Rattle.std.specs.Prelude.{◌≡◌, ◌<◌, length, IsTrue, ◌↔◌, None, OnErr, OnOk};
ghost use Rattle.mgn_params.specs.Tables.{Tables};
ghost use Rattle.mgn_desk.specs.Moved.{counted};

use crate::moves::Moves;
use crate::unit_portfolios::UnitPortfolios;
use mgn_nets::{Nets, Portfolios};
use mgn_num::{Cents, Quantity};
use mgn_params::{ParamSet, Version, Work};
use std::alloc::{AllocError, Global};
use std::marker::Model;

/// The portfolios of a marked desk, and the version of their set.
#[derive(Drop)]
pub(crate) struct Marked {
    pub version: Version,
    pub portfolios: UnitPortfolios,
}

/// The desk of a margin unit: the nets of its four portfolios under the set of a version, with what they require, or
/// nothing.
///
/// Contracts see the unit and, where the desk is marked, the version and the four portfolios; `shown` is what of it
/// callers go by. `IsMarkedBy` says that all that is kept is that of the nets under a set: `mark` gives it, and `apply`
/// and `take_back`, which ask for it, keep it. Nothing but `mark` takes memory, and that only where the desk has no lists
/// that are as long as the set asks for.
#[derive(Drop)]
pub struct Desk {
    unit: usize,
    marked: Option<Marked>,
}

impl Model for Desk {
    ghost use Rattle.mgn_desk.specs.Desks.{DeskRows};

    ghost Value = { DeskRows };

    ghost use Rattle.mgn_desk.specs.DeskRows.{desk_of};

    ghost view = { desk_of };
}

impl Desk {
    ghost use Rattle.mgn_nets.specs.Portfolios.{AreUnitNets, behind};
    ghost use Rattle.mgn_desk.specs.Desks.{AreInLimits, AreNetsAt, CanMoveMarked, HasRows, IsMarkedBy, IsMarkedTogether, Requires, Shown, StaysTogether, marked_with, moved_desk, shown, version_of};
    ghost use Rattle.mgn_desk.specs.Portfolios.{AreSmall, arrays_of, opposite};

    /// A desk of a unit that is not marked. Takes no memory.
    pub fn empty(unit: usize) -> Desk
        ensures { result ≡ record { unit = unit; marked = None } }
    {
        Desk { unit, marked: None }
    }

    /// The unit.
    pub fn unit(&self) -> usize
        ensures { result ≡ self.now.unit }
    {
        self.unit
    }

    /// The version that the desk was marked under, if it was.
    pub fn version(&self) -> Option<Version>
        ensures { result ≡ version_of self.now.marked }
    {
        match &self.marked {
            Some(marked) => Some(marked.version),
            None => None,
        }
    }

    /// Gives the desk these nets under the set of a version, in place of what it had. The only error is that memory was
    /// refused; the desk then is as it was.
    ///
    /// Each list has one net for each contract of the set, at most 10,000,000 in size. The cost is that of the nets
    /// other than 0.
    pub fn mark(
        &mut self,
        alloc: Global,
        version: Version,
        set: &ParamSet,
        nets: &Portfolios<&Nets>,
    ) -> Result<(), AllocError>
        requires { AreUnitNets set.now (behind nets.now) }
        ensures marked { OnOk result (shown self.new ≡ marked_with self.old.unit version (behind nets.now)) }
        ensures of_set { OnOk result (IsMarkedBy set.now self.new.marked) }
        ensures together { OnOk result (IsMarkedTogether (behind nets.now) self.new.marked) }
        ensures refused { OnErr result (self.new ≡ self.old) }
    {
        if self.fits(set) {
            self.renew(version, set, nets);
            return Ok(());
        }
        let portfolios = UnitPortfolios::of_nets(alloc, set, nets)?;
        let marked = Marked {
            version,
            portfolios,
        };
        // What it had is dropped by one call: after an assignment a proof goes through each field.
        drop(self.marked.replace(marked));
        Ok(())
    }

    // Whether it is marked, and all that is kept is as long as a set asks for.
    fn fits(&self, set: &ParamSet) -> bool
        ensures { IsTrue result ↔ HasRows set.now self.now.marked }
    {
        match &self.marked {
            Some(marked) => marked.portfolios.fits(set),
            None => false,
        }
    }

    // Marks a marked desk in place, under a set that its rows fit. Takes no memory.
    fn renew(&mut self, version: Version, set: &ParamSet, nets: &Portfolios<&Nets>)
        requires rows { HasRows set.now self.old.marked }
        requires nets { AreUnitNets set.now (behind nets.now) }
        ensures marked { shown self.new ≡ marked_with self.old.unit version (behind nets.now) }
        ensures of_set { IsMarkedBy set.now self.new.marked }
        ensures together { IsMarkedTogether (behind nets.now) self.new.marked }
    {
        if let Some(marked) = &mut self.marked {
            marked.version = version;
            marked.portfolios.renew(set, nets);
        }
    }

    /// Moves the nets of one contract. The set is the one that the desk was marked under, and the nets stay within
    /// their limits. One risk array is read for each portfolio that is moved; the others are not touched.
    pub fn apply(&mut self, set: &ParamSet, moves: &Moves, work: &mut Work)
        requires of_set { IsMarkedBy set.now self.old.marked }
        requires contract { moves.now.contract < length set.now.contracts }
        requires nets { CanMoveMarked moves.now self.old.marked }
        ensures moved { shown self.new ≡ moved_desk moves.now (shown self.old) }
        ensures together { StaysTogether moves.now self.old.marked self.new.marked }
        ensures of_set { IsMarkedBy set.now self.new.marked }
        ensures counted { work.new ≡ counted work.old (arrays_of moves.now) }
    {
        if let Some(marked) = &mut self.marked {
            marked.portfolios.apply(set, moves, work);
        }
    }

    /// Takes moves back, as `apply` of the opposite ones: after `apply` of these the desk shows what it showed before.
    pub fn take_back(&mut self, set: &ParamSet, moves: &Moves, work: &mut Work)
        requires of_set { IsMarkedBy set.now self.old.marked }
        requires contract { moves.now.contract < length set.now.contracts }
        requires nets { CanMoveMarked (opposite moves.now) self.old.marked }
        ensures moved { shown self.new ≡ moved_desk (opposite moves.now) (shown self.old) }
        ensures together { StaysTogether moves.now self.old.marked self.new.marked }
        ensures before { (before : Shown) → shown self.old ≡ moved_desk moves.now before → shown self.new ≡ before }
        ensures of_set { IsMarkedBy set.now self.new.marked }
        ensures counted { work.new ≡ counted work.old (arrays_of moves.now) }
    {
        self.apply(set, &moves.opposite(), work);
    }

    /// How many contracts the nets of a marked desk are of.
    pub fn contract_count(&self) -> usize
        requires { (set : Tables) × IsMarkedBy set self.now.marked }
        ensures { (set : Tables) → IsMarkedBy set self.now.marked → result ≡ length set.contracts }
    {
        match &self.marked {
            Some(marked) => marked.portfolios.lists.nets.len(),
            None => unreachable!(),
        }
    }

    /// The nets of a contract in the four portfolios of a marked desk, above 0 bought and below 0 sold.
    pub fn nets_at(&self, contract: usize) -> Portfolios<Quantity>
        requires { (set : Tables) × IsMarkedBy set self.now.marked × (contract < length set.contracts) }
        ensures nets { AreNetsAt self.now.marked contract result }
        ensures limits { AreInLimits result }
    {
        match &self.marked {
            Some(marked) => marked.portfolios.lists.nets_at(contract),
            None => unreachable!(),
        }
    }

    /// What the four portfolios of a marked desk require, in cents, 0 to 10^30. It takes the same time whatever the
    /// set.
    pub fn requirements(&self) -> Portfolios<Cents>
        requires { (set : Tables) × IsMarkedBy set self.now.marked }
        ensures requirements { (set : Tables) → IsMarkedBy set self.now.marked → Requires set self.now.marked result }
        ensures small { AreSmall result }
    {
        match &self.marked {
            Some(marked) => marked.portfolios.requirements(),
            None => unreachable!(),
        }
    }
}
