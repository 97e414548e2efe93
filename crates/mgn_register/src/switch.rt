ghost use Rattle.std.specs.Prelude.{◌≡◌, ◌≢◌, ◌<◌, ◌≤◌, ℕ, false, length, filter, slice_index_or, IfOk, IfSome, IsSomeAnd, IsTrue, List, None, OnOk, Some, true};
ghost use Rattle.std.specs.List.{list_all};
ghost use Rattle.mgn_coll.specs.Posted.{is_priced_by};
ghost use Rattle.mgn_machine.specs.NewSet.{covers, set_fits};
ghost use Rattle.mgn_machine.specs.State.{AccountState};
ghost use Rattle.mgn_params.specs.Tables.{Tables};
ghost use Rattle.mgn_span.specs.Scan.{value_at};
ghost use Rattle.mgn_params.specs.Limits.{IsWithinLimits};
ghost use Rattle.mgn_unit.specs.Amounts.{AreAfter, AreWithAmounts, KeepsPlaces, no_amounts, row_with_amounts};
ghost use Rattle.mgn_unit.specs.NewSets.{ArePrepared, AreWorths, IsPrepared, PreparedUnit as Prepared, is_covered, row_on_call, row_under};
ghost use Rattle.mgn_unit.specs.Prepared.{AreCarried, AreCurrent, ArePreparedFor};
ghost use Rattle.mgn_unit.specs.Rows.{IsRow, nets_in, row_with_worth};
ghost use Rattle.mgn_unit.specs.declared.row.Row.{Row as UnitRow};
ghost use Rattle.mgn_register.specs.BookStates.{IsKept, IsUnitRow, book_state};
ghost use Rattle.mgn_register.specs.Fits.{Fits};
ghost use Rattle.mgn_register.specs.UnderSets.{AreGains, AreNewRows, FitRows, spent_by};

use crate::register::{Register, refuse_if};
use crate::step_fault::StepFault;
use mgn_machine::Refusal;
use mgn_num::Cents;
use mgn_params::{ParamSet, Version, Work};
use mgn_unit::{NewRows, PreparedUnit, PreparedUnits, Row, Switch, UnitAmounts, has_all_contracts};
use std::alloc::{AllocError, Global};
use std::mem;

/// How many sets may come into force after the first.
const MOST_SWITCHES: u8 = 64;

// Takes what was prepared of a unit, if anything was.
fn take_prepared(prepared: &mut [Option<PreparedUnit>], unit: usize) -> Option<PreparedUnit>
    ensures taken { result ≡ slice_index_or prepared.old unit None }
    ensures others { (k : ℕ) → k ≢ unit → slice_index_or prepared.new k None ≡ slice_index_or prepared.old k None }
{
    if unit < prepared.len() {
        prepared[unit].take()
    } else {
        None
    }
}

// What was prepared of a unit, if anything was, left where it is.
fn prepared_of(prepared: &[Option<PreparedUnit>], unit: usize) -> Option<&PreparedUnit>
    ensures found { IfSome result (λ one. slice_index_or prepared.now unit None ≡ Some one.now) }
    ensures none { result ≡ None → slice_index_or prepared.now unit None ≡ None }
{
    if unit < prepared.len() {
        prepared[unit].as_ref()
    } else {
        None
    }
}

// Whether what was prepared of a unit is known to be for the nets that it has.
fn is_current(current: &[bool], unit: usize) -> bool
    ensures { result ≡ slice_index_or current.now unit false }
{
    unit < current.len() && current[unit]
}

// What the accounts of a unit gain.
pub(crate) fn gain_of(gains: &[Cents], unit: usize) -> Cents
    requires { unit < length gains.now }
    ensures { result ≡ value_at gains.now unit }
{
    gains[unit]
}

// The row of a unit under the new set of a switch, with what was prepared of it, if anything was. That is not compared
// where it is known to be for the nets that the unit has.
fn row_by(
    alloc: Global,
    row: &Row,
    switch: &Switch,
    gain: Cents,
    prepared: Option<PreparedUnit>,
    is_current: bool,
    work: &mut Work,
) -> Result<Row, AllocError>
    requires row { IsRow switch.now.old row.now }
    requires prepared { IfSome prepared (IsPrepared switch.now.new) }
    requires current { IsTrue is_current → IfSome prepared (AreCarried switch.now.old switch.now.new (nets_in row.now)) }
    requires worths { AreWorths (row_with_worth gain row.now) }
    ensures row { IfOk result (λ it. it ≡ row_under switch.now.old switch.now.new gain row.now) }
    ensures limits { IfOk result (λ it. IsRow switch.now.new it) }
    ensures idle { IsSomeAnd prepared (AreCarried switch.now.old switch.now.new (nets_in row.now))
        → work.new ≡ work.old }
{
    match prepared {
        Some(one) if is_current => row.taking(alloc, switch, gain, one),
        other => row.under(alloc, switch, gain, other, work),
    }
}

// The amounts of a unit under the new set of a switch in which each contract keeps its place, with what was prepared of
// it, if anything was.
fn amounts_by(
    alloc: Global,
    row: &Row,
    switch: &Switch,
    gain: Cents,
    prepared: &[Option<PreparedUnit>],
    unit: usize,
    is_current: bool,
    work: &mut Work,
) -> Result<UnitAmounts, AllocError>
    requires row { IsRow switch.now.old row.now }
    requires keeps { KeepsPlaces switch.now.old switch.now.new }
    requires prepared { ArePrepared switch.now.new prepared.now }
    requires current { IsTrue is_current → (one : Prepared) → slice_index_or prepared.now unit None ≡ Some one →
        AreCarried switch.now.old switch.now.new (nets_in row.now) one }
    requires worths { AreWorths (row_with_worth gain row.now) }
    ensures row { IfOk result (λ it. row_with_amounts it row.now ≡ row_under switch.now.old switch.now.new gain row.now) }
    ensures limits { IfOk result (λ it. IsRow switch.now.new (row_with_amounts it row.now)) }
    ensures idle { IsSomeAnd (slice_index_or prepared.now unit None)
        (AreCarried switch.now.old switch.now.new (nets_in row.now)) → work.new ≡ work.old }
{
    match prepared_of(prepared, unit) {
        Some(one) => row.amounts_by(alloc, switch, gain, one, is_current, work),
        None => row.amounts_under(alloc, switch, gain, work),
    }
}

// The rows with these amounts, by the units' numbers.
fn set_amounts(rows: &mut [Row], amounts: &[UnitAmounts])
    requires { length amounts.now ≡ length rows.old }
    ensures { AreWithAmounts amounts.now rows.old rows.new }
{
    for unit in 0..rows.len() {
        rows[unit].set_amounts(&amounts[unit]);
    }
}

impl Register {
    // Whether a set has the contract of each live lot and each hold, by the sizes of the units.
    fn has_contracts(&self, old: &ParamSet, new: &ParamSet) -> bool
        requires kept { IsKept old.now self.now }
        ensures { result ≡ list_all (λ (row : UnitRow). is_covered old.now new.now row.sizes) self.now.rows }
    {
        if has_all_contracts(old, new) {
            return true;
        }
        for unit in 0..self.rows.len() {
            if !self.rows[unit].is_covered_by(old, new) {
                return false;
            }
        }
        true
    }

    // Whether a set has each class of which units are posted.
    fn has_classes(&self, new: &ParamSet) -> bool
        ensures { result ≡
            list_all (λ (a : AccountState). is_priced_by new.now.classes a.collateral) self.now.state.accounts }
    {
        self.accounts
            .iter()
            .all(|account| account.is_priced_by(new))
    }

    // Whether a set has what all accounts hold.
    fn is_covered_by(&self, old: &ParamSet, new: &ParamSet) -> bool
        requires kept { IsKept old.now self.now }
        ensures { result ≡ covers new.now self.now.state.accounts }
    {
        self.has_contracts(old, new) && self.has_classes(new)
    }

    /// Whether another set may come into force, and why not. Nothing changes.
    #[tactic(auto, unfolding(mgn_machine::specs::NewSet::set_fits))]
    pub fn set_fits(&self, old: &ParamSet, new: &ParamSet) -> Result<(), Refusal>
        requires kept { IsKept old.now self.now }
        ensures fits { result ≡ set_fits new.now self.now.state }
        ensures covers { OnOk result (covers new.now self.now.state.accounts ≡ true) }
        ensures few { OnOk result (self.now.state.version < 64) }
    {
        refuse_if(self.closed, Refusal::Closed)?;
        refuse_if(!self.is_covered_by(old, new), Refusal::Missing)?;
        refuse_if(self.version.number() >= MOST_SWITCHES, Refusal::Sets)
    }

    // The rows of all units under the new set of a switch, which has what the accounts hold.
    fn rows_anew(
        &self,
        alloc: Global,
        switch: &Switch,
        gains: &[Cents],
        prepared: &mut [Option<PreparedUnit>],
        current: &[bool],
        work: &mut Work,
    ) -> Result<Vec<Row>, AllocError>
        requires kept { IsKept switch.now.old self.now }
        requires limits { IsWithinLimits switch.now.new }
        requires gains { AreGains switch.now.old switch.now.new self.now gains.now }
        requires prepared { ArePrepared switch.now.new prepared.old }
        requires current { AreCurrent switch.now.old switch.now.new self.now.rows prepared.old current.now }
        ensures long { IfOk result (λ rows. length rows.items ≡ length self.now.rows) }
        ensures rows { IfOk result (λ rows. (u : ℕ) (d : UnitRow) → u < length rows.items →
            IsUnitRow switch.now.new self.now.state.accounts u (slice_index_or rows.items u d)) }
        ensures idle { ArePreparedFor switch.now.old switch.now.new self.now.rows prepared.old → work.new ≡ work.old }
    {
        let mut rows = Vec::with_capacity(alloc, self.rows.len())?;
        for unit in 0..self.rows.len() {
            let gain = gain_of(gains, unit);
            let ready = take_prepared(prepared, unit);
            let is_current = is_current(current, unit);
            let row = row_by(
                alloc,
                &self.rows[unit],
                switch,
                gain,
                ready,
                is_current,
                work,
            )?;
            rows.push_reserved(row);
        }
        Ok(rows)
    }

    // The amounts of all units under the new set of a switch in which each contract keeps its place.
    fn amounts_of(
        &self,
        alloc: Global,
        switch: &Switch,
        gains: &[Cents],
        prepared: &[Option<PreparedUnit>],
        current: &[bool],
        work: &mut Work,
    ) -> Result<Vec<UnitAmounts>, AllocError>
        requires kept { IsKept switch.now.old self.now }
        requires limits { IsWithinLimits switch.now.new }
        requires keeps { KeepsPlaces switch.now.old switch.now.new }
        requires gains { AreGains switch.now.old switch.now.new self.now gains.now }
        requires prepared { ArePrepared switch.now.new prepared.now }
        requires current { AreCurrent switch.now.old switch.now.new self.now.rows prepared.now current.now }
        ensures long { IfOk result (λ amounts. length amounts.items ≡ length self.now.rows) }
        ensures rows { IfOk result (λ amounts. (u : ℕ) (d : UnitRow) → u < length self.now.rows →
            IsUnitRow switch.now.new self.now.state.accounts u
            (row_with_amounts (slice_index_or amounts.items u no_amounts) (slice_index_or self.now.rows u d))) }
        ensures idle { ArePreparedFor switch.now.old switch.now.new self.now.rows prepared.now → work.new ≡ work.old }
    {
        let mut all = Vec::with_capacity(alloc, self.rows.len())?;
        for unit in 0..self.rows.len() {
            let amounts = amounts_by(
                alloc,
                &self.rows[unit],
                switch,
                gain_of(gains, unit),
                prepared,
                unit,
                is_current(current, unit),
                work,
            )?;
            all.push_reserved(amounts);
        }
        Ok(all)
    }

    // What the rows of all units become under a set that has what the accounts hold.
    fn rows_of(
        &self,
        alloc: Global,
        old: &ParamSet,
        new: &ParamSet,
        prepared: &mut [Option<PreparedUnit>],
        current: &[bool],
        work: &mut Work,
    ) -> Result<NewRows, AllocError>
        requires kept { IsKept old.now self.now }
        requires covers { covers new.now self.now.state.accounts ≡ true }
        requires prepared { ArePrepared new.now prepared.old }
        requires current { AreCurrent old.now new.now self.now.rows prepared.old current.now }
        ensures rows { IfOk result (AreNewRows new.now self.now) }
        ensures idle { ArePreparedFor old.now new.now self.now.rows prepared.old → work.new ≡ work.old }
    {
        new.limits();
        let switch = Switch::new(alloc, old, new)?;
        let gains = switch.gains(alloc, self.accounts.as_slice(), self.rows.len())?;
        // Lists that were prepared for all units become the rows' own: those before are memory for the next copies.
        if switch.keeps_places() && prepared.len() < self.rows.len() {
            let amounts = self.amounts_of(alloc, &switch, &gains, prepared, current, work)?;
            return Ok(NewRows::Kept(amounts));
        }
        let rows = self.rows_anew(alloc, &switch, &gains, prepared, current, work)?;
        Ok(NewRows::Moved(rows))
    }

    /// What the rows of all units become under another set, or why it may not come into force. Nothing changes. Memory
    /// is asked for only where it may. What was prepared of units under that set, by their numbers, is taken where a
    /// unit's nets are still the same, which is looked at unless it is known; any other unit is worked out anew. Where
    /// it is so of all units no risk array is read.
    pub fn rows_under(
        &self,
        alloc: Global,
        old: &ParamSet,
        new: &ParamSet,
        prepared: &mut PreparedUnits,
        work: &mut Work,
    ) -> Result<NewRows, StepFault>
        requires kept { IsKept old.now self.now }
        requires prepared { ArePrepared new.now prepared.old.units.items }
        requires current { let ready = prepared.old in
            AreCurrent old.now new.now self.now.rows ready.units.items ready.current.items }
        ensures fits { Fits (set_fits new.now self.now.state) result }
        ensures covers { OnOk result (covers new.now self.now.state.accounts ≡ true) }
        ensures few { OnOk result (self.now.state.version < 64) }
        ensures rows { IfOk result (AreNewRows new.now self.now) }
        ensures idle { ArePreparedFor old.now new.now self.now.rows prepared.old.units.items → work.new ≡ work.old }
    {
        self.set_fits(old, new)?;
        let units = prepared.units.as_mut_slice();
        let current = prepared.current.as_slice();
        Ok(self.rows_of(alloc, old, new, units, current, work)?)
    }

    /// Another set is in force, under which the rows of all units become these; where they are made anew those before
    /// are handed out. Gives how many units are on call.
    pub fn put_in_force(&mut self, rows: NewRows, version: Version, spent: &mut Vec<Row>) -> u32
        requires fit { FitRows rows self.old.rows }
        requires few { (after : List UnitRow) → AreAfter rows self.old.rows after → length after ≤ 1024 }
        ensures state { let old = self.old.state in
            self.new ≡ book_state old.origins old.accounts self.new.rows old.closed version }
        ensures rows { AreAfter rows self.old.rows self.new.rows }
        ensures on_call { result ≡ length (filter row_on_call self.new.rows) }
        ensures spent { spent.new.items ≡ spent_by rows self.old.rows spent.old.items }
    {
        match rows {
            NewRows::Kept(amounts) => set_amounts(&mut self.rows, &amounts),
            NewRows::Moved(rows) => *spent = mem::replace(&mut self.rows, rows),
        }
        self.version = version;
        self.rows.iter().filter(|row| row.is_on_call()).count() as u32
    }
}
