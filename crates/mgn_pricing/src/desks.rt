ghost use Rattle.std.specs.Prelude.{◌≡◌, ◌<◌, ◌≤◌, ◌+◌, [], ℕ, IfOk, IfSome, IsOk, OnErr, OnOk, None, is_some, length, slice_index_or, false, true};
ghost use Rattle.mgn_nets.specs.Portfolios.{AreUnitNets};
ghost use Rattle.mgn_unit.specs.Amounts.{AreKnown, AreRequired};
ghost use Rattle.mgn_unit.specs.Rows.{IsChange, IsRoomy, IsRow, Prices, nets_in};
ghost use Rattle.mgn_unit.specs.declared.row.Row.{Row as UnitRow};
ghost use Rattle.mgn_plan.specs.Plans.{CanChange, Foresees, IsPossible, moved_nets, row_at};
ghost use Rattle.mgn_plan.specs.declared.plans.Plan.TheVariants.{Nothing};
ghost use Rattle.mgn_pricing.specs.Desks.{IsReady, Rests, is_of, moves_of};

use mgn_desk::{Desk, Moves};
use mgn_params::{ParamSet, Version, Work};
use mgn_plan::{Known, Plan, UnitChange};
use mgn_unit::{Change, Priced, Row};
use std::alloc::{AllocError, Global};
use std::marker::Model;
use std::mem;

/// The desks of the margin units of a book, by the units' numbers, which they have. A unit whose desk is not there, or
/// is empty, or of an older version, is marked when it is next asked for.
#[derive(Drop)]
pub struct Desks {
    desks: Vec<Desk>,
}

impl Model for Desks {
    ghost use Rattle.std.specs.Prelude.{List};
    ghost use Rattle.mgn_desk.specs.Desks.{DeskRows};
    ghost use Rattle.mgn_pricing.specs.Desks.{AreNumbered};

    ghost Value = { List DeskRows };

    ghost view = { λ d. d.desks.items };

    ghost invariant = { λ d. AreNumbered d.desks.items };
}

// Marks a desk anew with the nets of a row, if it is marked, and tells what these require. Where memory is refused it is
// emptied.
fn mark_again(
    desk: &mut Desk,
    alloc: Global,
    version: Version,
    set: &ParamSet,
    row: &Row,
) -> Option<Priced>
    requires { AreUnitNets set.now (nets_in row.now) }
    ensures known { IfSome result (AreRequired set.now row.now) }
    ensures rests { Rests set.now version (nets_in row.now) desk.new.marked }
    ensures told { is_some result ≡ is_of version desk.new.marked }
    ensures empty { desk.old.marked ≡ None → desk.new.marked ≡ None }
    ensures number { desk.new.unit ≡ desk.old.unit }
{
    desk.version()?;
    if desk.mark(alloc, version, set, &row.nets()).is_err() {
        // Dropped by one call: after an assignment a proof goes through each field of a desk.
        let unit = desk.unit();
        drop(mem::replace(desk, Desk::empty(unit)));
        return None;
    }
    Some(desk.requirements())
}

/// What a change of a unit's row moves in the nets of its desk.
pub fn moves_of(change: &Change) -> Moves
    ensures { result ≡ moves_of change.now }
{
    Moves {
        contract: change.contract,
        lots: change.lots.quantity,
        buys: change.buys.quantity,
        sales: change.sales.quantity,
        all: change.all.quantity,
    }
}

/// Whether a desk is marked under a version.
pub fn is_of(desk: &Desk, version: Version) -> bool
    ensures { result ≡ is_of version desk.now.marked }
{
    match desk.version() {
        Some(own) => own.number() == version.number(),
        None => false,
    }
}

// Marks a desk with the nets of a row, unless it is marked under the version already. Where memory is refused nothing
// has changed.
fn ready(
    desk: &mut Desk,
    alloc: Global,
    version: Version,
    set: &ParamSet,
    row: &Row,
) -> Result<(), AllocError>
    requires row { IsRow set.now row.now }
    requires rests { Rests set.now version (nets_in row.now) desk.old.marked }
    ensures ready { OnOk result (IsReady set.now version (nets_in row.now) desk.new.marked) }
    ensures refused { OnErr result (desk.new ≡ desk.old) }
    ensures of_version { is_of version desk.old.marked ≡ true → (desk.new ≡ desk.old) × IsOk result }
    ensures number { desk.new.unit ≡ desk.old.unit }
{
    if is_of(desk, version) {
        return Ok(());
    }
    desk.mark(alloc, version, set, &row.nets())
}

// Moves a ready desk as a change of its unit's row says, and tells what is then required.
fn foresee(desk: &mut Desk, version: Version, set: &ParamSet, row: &Row, change: &Change) -> Priced
    requires row { IsRow set.now row.now }
    requires change { IsChange set.now change.now }
    requires roomy { IsRoomy change.now row.now }
    requires ready { IsReady set.now version (nets_in row.now) desk.old.marked }
    ensures priced { Prices set.now change.now row.now result }
    ensures ready { IsReady set.now version (moved_nets change.now (nets_in row.now)) desk.new.marked }
    ensures number { desk.new.unit ≡ desk.old.unit }
{
    desk.apply(set, &moves_of(change), &mut Work::new());
    desk.requirements()
}

// Moves a desk back that was moved by a change which came to nothing.
fn take_back(desk: &mut Desk, version: Version, set: &ParamSet, row: &Row, change: &Change)
    requires row { IsRow set.now row.now }
    requires change { IsChange set.now change.now }
    requires ready { IsReady set.now version (moved_nets change.now (nets_in row.now)) desk.old.marked }
    ensures ready { IsReady set.now version (nets_in row.now) desk.new.marked }
    ensures of_version { is_of version desk.new.marked ≡ true }
    ensures number { desk.new.unit ≡ desk.old.unit }
{
    desk.take_back(set, &moves_of(change), &mut Work::new());
}

// The same, where a desk that is empty or of an older version has nothing to take back.
fn back(desk: &mut Desk, version: Version, set: &ParamSet, row: &Row, change: &Change)
    requires row { IsRow set.now row.now }
    requires change { IsChange set.now change.now }
    requires moved { Rests set.now version (moved_nets change.now (nets_in row.now)) desk.old.marked }
    ensures rests { Rests set.now version (nets_in row.now) desk.new.marked }
    ensures of_version { is_of version desk.old.marked ≡ true → is_of version desk.new.marked ≡ true }
    ensures others { is_of version desk.old.marked ≡ false → desk.new ≡ desk.old }
    ensures number { desk.new.unit ≡ desk.old.unit }
{
    if is_of(desk, version) {
        take_back(desk, version, set, row, change);
    }
}

impl Desks {
    ghost use Rattle.mgn_plan.specs.Plans.{KnowsAll};
    ghost use Rattle.mgn_pricing.specs.Desks.{AreDesks, AreEmpty, AreReady, AreTold, IsReady, KeepsMarked, KeepsOthers, KeepsUnplanned, Rests, StayEmpty, is_of, marked_at};

    /// No desks. Takes no memory.
    pub fn new(alloc: Global) -> Desks
        ensures { result ≡ [] }
    {
        Desks {
            desks: Vec::new(alloc),
        }
    }

    // A desk for each of so many units, empty where there was none. Where memory is refused there may be some empty
    // ones more.
    fn grow(&mut self, units: usize) -> Result<(), AllocError>
        ensures there { OnOk result (units ≤ length self.new) }
        ensures same { (k : ℕ) → marked_at self.new k ≡ marked_at self.old k }
        ensures few { (n : ℕ) → length self.old ≤ n → units ≤ n → length self.new ≤ n }
    {
        for number in self.desks.len()..units {
            self.desks.push(Desk::empty(number))?;
        }
        Ok(())
    }

    // Empties the desk of a unit.
    fn empty(&mut self, unit: usize)
        ensures emptied { marked_at self.new unit ≡ None }
        ensures others { KeepsOthers unit self.old self.new }
        ensures long { length self.new ≡ length self.old }
    {
        if let Some(desk) = self.desks.get_mut(unit) {
            // Dropped by one call: after an assignment a proof goes through each field of a desk.
            drop(mem::replace(desk, Desk::empty(unit)));
        }
    }

    // What a unit requires after a change of its row: its desk, which is marked where it has to be, moves as the change
    // says. Where memory for the mark is refused all desks stay as they were.
    fn foresee_one(
        &mut self,
        alloc: Global,
        version: Version,
        set: &ParamSet,
        rows: &[Row],
        change: &UnitChange,
    ) -> Result<Priced, AllocError>
        requires possible { CanChange set.now rows.now change.now }
        requires rests { Rests set.now version (nets_in (row_at set.now rows.now change.now.unit))
            (marked_at self.old change.now.unit) }
        ensures priced { IfOk result (Prices set.now change.now.change (row_at set.now rows.now change.now.unit)) }
        ensures ready { OnOk result (IsReady set.now version
            (moved_nets change.now.change (nets_in (row_at set.now rows.now change.now.unit)))
            (marked_at self.new change.now.unit)) }
        ensures refused { OnErr result (marked_at self.new change.now.unit ≡ marked_at self.old change.now.unit) }
        ensures others { KeepsOthers change.now.unit self.old self.new }
        ensures few { length self.old ≤ length rows.now → length self.new ≤ length rows.now }
    {
        self.grow(rows.len())?;
        let row = &rows[change.unit];
        let desk = &mut self.desks[change.unit];
        ready(desk, alloc, version, set, row)?;
        Ok(foresee(desk, version, set, row, &change.change))
    }

    // Moves the desk of a unit back, after a change that came to nothing, where it is of the version.
    fn take_back_one(&mut self, version: Version, set: &ParamSet, rows: &[Row], change: &UnitChange)
        requires possible { CanChange set.now rows.now change.now }
        requires moved { Rests set.now version
            (moved_nets change.now.change (nets_in (row_at set.now rows.now change.now.unit)))
            (marked_at self.old change.now.unit) }
        ensures rests { Rests set.now version (nets_in (row_at set.now rows.now change.now.unit))
            (marked_at self.new change.now.unit) }
        ensures of_version { is_of version (marked_at self.old change.now.unit) ≡ true →
            is_of version (marked_at self.new change.now.unit) ≡ true }
        ensures others { KeepsOthers change.now.unit self.old self.new }
        ensures long { length self.new ≡ length self.old }
    {
        if let Some(desk) = self.desks.get_mut(change.unit) {
            back(desk, version, set, &rows[change.unit], &change.change);
        }
    }

    // Moves the desks of a plan's units as the plan says, and tells what they then require. Where memory is refused
    // some of these may have moved.
    fn follow(
        &mut self,
        alloc: Global,
        version: Version,
        set: &ParamSet,
        rows: &[Row],
        plan: &Plan,
    ) -> Result<Known, AllocError>
        requires possible { IsPossible set.now rows.now plan.now }
        requires rest { AreDesks set.now version Nothing rows.now self.old }
        ensures known { IfOk result (Foresees set.now rows.now plan.now) }
        ensures whole { IfOk result (KnowsAll plan.now) }
        ensures desks { OnOk result (AreDesks set.now version plan.now rows.now self.new) }
        ensures ready { OnOk result (AreReady set.now version plan.now rows.now self.new) }
        ensures others { KeepsUnplanned plan.now self.old self.new }
        ensures few { length self.new ≤ length rows.now }
    {
        match plan {
            Plan::Nothing => Ok(Known::NOTHING),
            Plan::One(change) => {
                let first = self.foresee_one(alloc, version, set, rows, change)?;
                Ok(Known {
                    first: Some(first),
                    second: None,
                })
            }
            Plan::Two(giver, taker) => {
                let first = self.foresee_one(alloc, version, set, rows, giver)?;
                let second = self.foresee_one(alloc, version, set, rows, taker)?;
                Ok(Known {
                    first: Some(first),
                    second: Some(second),
                })
            }
        }
    }

    // Empties the desks of a plan's units.
    fn forget(&mut self, plan: &Plan)
        ensures emptied { AreEmpty plan.now self.new }
        ensures others { KeepsUnplanned plan.now self.old self.new }
        ensures long { length self.new ≡ length self.old }
    {
        match plan {
            Plan::Nothing => {}
            Plan::One(change) => self.empty(change.unit),
            Plan::Two(giver, taker) => {
                self.empty(giver.unit);
                self.empty(taker.unit);
            }
        }
    }

    /// What the units of a plan require once it is done: their desks, which are marked where they have to be, move as
    /// the plan says, and no other does. An error says that memory for a mark was refused; these desks are then empty,
    /// and all are in step with the rows whether the plan is done or not.
    pub fn foresee(
        &mut self,
        alloc: Global,
        version: Version,
        set: &ParamSet,
        rows: &[Row],
        plan: &Plan,
    ) -> Result<Known, AllocError>
        requires possible { IsPossible set.now rows.now plan.now }
        requires rest { AreDesks set.now version Nothing rows.now self.old }
        ensures known { IfOk result (Foresees set.now rows.now plan.now) }
        ensures whole { IfOk result (KnowsAll plan.now) }
        ensures ready { OnOk result (AreReady set.now version plan.now rows.now self.new) }
        ensures moved { AreDesks set.now version plan.now rows.now self.new }
        ensures refused { OnErr result (AreDesks set.now version Nothing rows.now self.new) }
        ensures emptied { OnErr result (AreEmpty plan.now self.new) }
        ensures others { KeepsUnplanned plan.now self.old self.new }
    {
        let known = self.follow(alloc, version, set, rows, plan);
        if known.is_err() {
            self.forget(plan);
        }
        known
    }

    /// Marks each desk that is marked anew, under the set of a version with the nets of its unit's row, and tells what
    /// the unit requires there, by the units' numbers. Of a unit whose desk is empty nothing is told, nor of one for
    /// whose mark memory is refused: its desk is emptied. The only error is that memory was refused for the list; then
    /// nothing has changed.
    pub fn mark_all(
        &mut self,
        alloc: Global,
        version: Version,
        set: &ParamSet,
        rows: &[Row],
    ) -> Result<Vec<Option<Priced>>, AllocError>
        requires nets { (u : ℕ) (d : UnitRow) → u < length rows.now → AreUnitNets set.now (nets_in (slice_index_or rows.now u d)) }
        requires few { length self.old ≤ length rows.now }
        ensures known { IfOk result (λ known. AreKnown set.now rows.now known.items) }
        ensures desks { OnOk result (AreDesks set.now version Nothing rows.now self.new) }
        ensures told { IfOk result (λ known. AreTold version self.new known.items) }
        ensures empty { OnOk result (StayEmpty self.old self.new) }
        ensures same { OnErr result (self.new ≡ self.old) }
    {
        let mut known = Vec::with_capacity(alloc, self.desks.len())?;
        for unit in 0..self.desks.len() {
            let priced = mark_again(&mut self.desks[unit], alloc, version, set, &rows[unit]);
            known.push_reserved(priced);
        }
        Ok(known)
    }

    /// Empties all desks.
    pub fn empty_all(&mut self)
        ensures { self.new ≡ [] }
    {
        self.desks.clear();
    }

    /// Moves the desks of a plan's units back, after a plan that came to nothing. No other desk moves.
    pub fn take_back(&mut self, version: Version, set: &ParamSet, rows: &[Row], plan: &Plan)
        requires possible { IsPossible set.now rows.now plan.now }
        requires moved { AreDesks set.now version plan.now rows.now self.old }
        ensures rest { AreDesks set.now version Nothing rows.now self.new }
        ensures marked { KeepsMarked version self.old self.new }
        ensures others { KeepsUnplanned plan.now self.old self.new }
    {
        match plan {
            Plan::Nothing => {}
            Plan::One(change) => self.take_back_one(version, set, rows, change),
            Plan::Two(giver, taker) => {
                self.take_back_one(version, set, rows, taker);
                self.take_back_one(version, set, rows, giver);
            }
        }
    }
}
