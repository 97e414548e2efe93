ghost use Rattle.std.specs.Prelude.{◌≡◌, ◌<◌, ◌≤◌, ◌*◌, ◌^◌, ◌+ℤ◌, ◌↔◌, ℕ, ℤ, All, IfOk, IfSome, IsSome, IsSomeAnd, IsTrue, List, Ok, Some, length, pos, replicate, slice_set, true, unsigned_abs};
ghost use Rattle.std.specs.Option.{option_map};
ghost use Rattle.mgn_params.specs.Tables.{Tables};
ghost use Rattle.mgn_span.specs.Positions.{IsNet};
ghost use Rattle.mgn_span.specs.Requirement.{requirement};
ghost use Rattle.mgn_span.specs.Scan.{value_at};
ghost use Rattle.mgn_nets.specs.Portfolios.{AreNets};
ghost use Rattle.mgn_machine.specs.State.{AccountState};
ghost use Rattle.mgn_unit.specs.Rows.{IsRow, IsPortfolioRow, nets_in, row_with_worth};
ghost use Rattle.mgn_unit.specs.Prepared.{AreCarried, ArePriced, IsBeside};
ghost use Rattle.mgn_unit.specs.Amounts.{KeepsPlaces};
ghost use Rattle.mgn_unit.specs.NewSets.{AreWorths, IsPrepared, IsPreparedPortfolio, PreparedUnit, SetPair, carried, is_covered, is_covered_at, own_places, portfolio_under, row_on_call, row_under, unit_gain, value_gain};

use crate::account::Account;
use crate::prepared::{prepare, prepare_beside};
use crate::row::{PortfolioRow, PreparedPortfolio, PreparedUnit, PricedNets, Row};
use mgn_nets::{Nets, Portfolios};
use mgn_num::{Cents, Quantity};
use mgn_params::{ParamSet, Work};
use std::alloc::{AllocError, Global};
use std::marker::Model;

/// A switch from the set in force to another one: where each contract of the new set stands in the old one, looked up
/// once for all rows. Contracts see the two sets.
#[derive(Drop)]
pub struct Switch<'a> {
    old: &'a ParamSet,
    new: &'a ParamSet,
    places: Vec<Option<usize>>,
    // Whether each contract of the old set has its own place in the new one too, as where only numbers are new.
    keeps_places: bool,
}

impl<'a> Model for Switch<'a> {
    ghost use Rattle.std.specs.Prelude.{◌≡◌};
    ghost use Rattle.mgn_unit.specs.NewSets.{ArePlaces, SetPair};

    ghost Value = { SetPair };

    ghost view = { λ s. record { old = s.old.now; new = s.new.now } };

    ghost invariant = { λ s. ArePlaces s.old.now s.new.now s.places.items s.keeps_places };
}

// Whether a place is this one.
fn is_place(place: Option<usize>, i: usize) -> bool
    ensures { IsTrue result ↔ (place ≡ Some i) }
{
    match place {
        Some(own) => own == i,
        None => false,
    }
}

// Whether these are all places of a list, in its order.
fn are_own_places(places: &[Option<usize>], count: usize) -> bool
    ensures { IsTrue result ↔ (places.now ≡ own_places count) }
{
    if places.len() != count {
        return false;
    }
    for i in 0..count {
        if !is_place(places[i], i) {
            return false;
        }
    }
    true
}

impl<'a> Switch<'a> {
    /// A switch between two sets. An error says that memory was refused.
    pub fn new(
        alloc: Global,
        old: &'a ParamSet,
        new: &'a ParamSet,
    ) -> Result<Switch<'a>, AllocError>
        ensures old { IfOk result (λ switch. switch.old ≡ old.now) }
        ensures new { IfOk result (λ switch. switch.new ≡ new.now) }
    {
        let count = new.contract_count();
        let mut places = Vec::with_capacity(alloc, count)?;
        for i in 0..count {
            places.push_reserved(old.contract(new.contract_at(i).name));
        }
        let keeps_places = are_own_places(&places, old.contract_count());
        Ok(Switch {
            old,
            new,
            places,
            keeps_places,
        })
    }

    /// Whether each contract of the old set has its own place in the new one, which has no other.
    pub fn keeps_places(&self) -> bool
        ensures { IsTrue result ↔ KeepsPlaces self.now.old self.now.new }
    {
        self.keeps_places
    }

    // The new set.
    pub(crate) fn new_set(&self) -> &ParamSet
        ensures { result.now ≡ self.now.new }
    {
        self.new
    }

    /// How much more the collateral of each unit's accounts is worth under the new set, in cents, by the units'
    /// numbers; below 0 where it is worth less. Each account is looked at once. An error says that memory was refused.
    pub fn gains(
        &self,
        alloc: Global,
        accounts: &[Account],
        units: usize,
    ) -> Result<Vec<Cents>, AllocError>
        requires few { length accounts.now ≤ 1024 }
        requires within { All (λ (a : AccountState). a.unit < units) accounts.now }
        ensures one_each { IfOk result (λ gains. length gains.items ≡ units) }
        ensures gains { IfOk result (λ gains. (u : ℕ) → u < units →
            value_at gains.items u ≡ unit_gain self.now.old self.now.new accounts.now u) }
    {
        let mut gains = Vec::new(alloc);
        gains.resize(units, Cents::ZERO)?;
        self.add_gains(&mut gains, accounts);
        Ok(gains)
    }

    // Adds up what the accounts of each unit gain.
    fn add_gains(&self, gains: &mut [Cents], accounts: &[Account])
        requires few { length accounts.now ≤ 1024 }
        requires within { All (λ (a : AccountState). a.unit < length gains.old) accounts.now }
        requires zero { gains.old ≡ replicate (length gains.old) (pos 0) }
        ensures one_each { length gains.new ≡ length gains.old }
        ensures gains { (u : ℕ) → u < length gains.old →
            value_at gains.new u ≡ unit_gain self.now.old self.now.new accounts.now u }
    {
        for account in accounts {
            self.add_gain(gains, account);
        }
    }

    // Adds what an account gains to what its unit does.
    fn add_gain(&self, gains: &mut [Cents], account: &Account)
        requires inside { account.now.unit < length gains.old }
        requires room { unsigned_abs (value_at gains.old account.now.unit) ≤ 10 ^ 22 }
        ensures small { unsigned_abs (value_gain self.now.old self.now.new account.now) ≤ 2 * 10 ^ 18 }
        ensures added { gains.new ≡ slice_set gains.old account.now.unit
            (value_at gains.old account.now.unit +ℤ value_gain self.now.old self.now.new account.now) }
    {
        let unit = account.unit();
        gains[unit] = gain_at(gains, unit).plus(account.value_gain(self.old, self.new));
    }

    // Whether these are the numbers of a row, by the contracts' names, for the contracts of the new set.
    pub(crate) fn carries(&self, row: &Nets, numbers: &Nets) -> bool
        requires { length row.now ≡ length self.now.old.contracts }
        ensures { IsTrue result ↔ (numbers.now ≡ carried self.now.old self.now.new row.now) }
    {
        if !self.keeps_places {
            return numbers.are_at_places(row, self.places.as_slice());
        }
        numbers.is_same(row)
    }

    // The numbers of a row, by the contracts' names, for the contracts of the new set.
    pub(crate) fn carry(&self, alloc: Global, row: &Nets) -> Result<Nets, AllocError>
        requires one_each { length row.now ≡ length self.now.old.contracts }
        requires nets { All IsNet row.now }
        ensures row { IfOk result (λ nets. nets ≡ carried self.now.old self.now.new row.now) }
        ensures one_each { IfOk result (λ nets. length nets ≡ length self.now.new.contracts) }
        ensures limits { IfOk result (λ nets. All IsNet nets) }
    {
        if self.keeps_places {
            return row.copy(alloc);
        }
        self.new.limits();
        row.at_places(alloc, self.places.as_slice())
    }
}

// What the accounts of a unit gain.
fn gain_at(gains: &[Cents], unit: usize) -> Cents
    requires { unit < length gains.now }
    ensures { result ≡ value_at gains.now unit }
{
    gains[unit]
}

// Whether the quantity in a contract of the old set is 0, or the new one has it.
fn is_contract_covered(nets: &Nets, contract: usize, old: &ParamSet, new: &ParamSet) -> bool
    requires contract { contract < length old.now.contracts }
    requires one_each { length nets.now ≡ length old.now.contracts }
    ensures { result ≡ is_covered_at old.now new.now nets.now contract }
{
    if nets.at(contract) == Quantity::ZERO {
        return true;
    }
    new.contract(old.contract_at(contract).name).is_some()
}

// Whether the new set has each contract of the old one in which the quantity is not 0.
pub(crate) fn are_covered(nets: &Nets, old: &ParamSet, new: &ParamSet) -> bool
    requires one_each { length nets.now ≡ length old.now.contracts }
    ensures { result ≡ is_covered old.now new.now nets.now }
{
    old.limits();
    let mut from = 0;
    while let Some(contract) = nets.next_held(from) {
        if !is_contract_covered(nets, contract, old, new) {
            return false;
        }
        from = contract + 1;
    }
    true
}

// What was prepared of a portfolio, where that was for the nets that it carries over.
fn still_prepared(
    switch: &Switch,
    nets: &Nets,
    prepared: Option<PreparedPortfolio>,
) -> Option<PreparedPortfolio>
    requires nets { AreNets switch.now.old nets.now }
    requires prepared { IfSome prepared (IsPreparedPortfolio switch.now.new) }
    ensures prepared { IfSome result (IsPreparedPortfolio switch.now.new) }
    ensures limits { IfSome result (λ it. AreNets switch.now.new it.nets) }
    ensures nets { IfSome result (λ it. it.nets ≡ carried switch.now.old switch.now.new nets.now) }
    ensures used { IsSomeAnd prepared (λ it. it.nets ≡ carried switch.now.old switch.now.new nets.now) → IsSome result }
{
    let prepared = prepared?;
    if switch.carries(nets, &prepared.nets) {
        Some(prepared)
    } else {
        None
    }
}

/// Whether the new set has each contract of the old one: then it has what any unit holds.
pub fn has_all_contracts(old: &ParamSet, new: &ParamSet) -> bool
    ensures { IsTrue result → (sizes : List ℤ) → is_covered old.now new.now sizes ≡ true }
{
    for contract in 0..old.contract_count() {
        if new.contract(old.contract_at(contract).name).is_none() {
            return false;
        }
    }
    true
}

impl PortfolioRow {
    // The portfolio with an amount more in worth, and with nets under the new set and what these require.
    fn with(&self, gain: Cents, prepared: PreparedPortfolio) -> PortfolioRow
        requires { unsigned_abs (self.now.worth +ℤ gain) ≤ 10 ^ 24 }
        ensures side { result ≡ record {
          nets = prepared.nets;
          worth = self.now.worth +ℤ gain;
          requirement = prepared.requirement;
        } }
        ensures limits { (set : Tables) → AreNets set prepared.nets → IsPreparedPortfolio set prepared →
            IsPortfolioRow set result }
    {
        PortfolioRow {
            nets: prepared.nets,
            worth: self.worth.plus(gain),
            requirement: prepared.requirement,
        }
    }

    // The portfolio under the new set, with an amount more in worth. What was prepared for its nets becomes its own.
    fn under(
        &self,
        alloc: Global,
        switch: &Switch,
        gain: Cents,
        prepared: Option<PreparedPortfolio>,
        work: &mut Work,
    ) -> Result<PortfolioRow, AllocError>
        requires side { IsPortfolioRow switch.now.old self.now }
        requires worth { unsigned_abs (self.now.worth +ℤ gain) ≤ 10 ^ 24 }
        requires prepared { IfSome prepared (IsPreparedPortfolio switch.now.new) }
        ensures side { IfOk result (λ side. side ≡ portfolio_under switch.now.old switch.now.new gain self.now) }
        ensures limits { IfOk result (λ side. IsPortfolioRow switch.now.new side) }
        ensures idle { IsSomeAnd prepared (λ it. it.nets ≡ carried switch.now.old switch.now.new self.now.nets)
            → work.new ≡ work.old }
    {
        match still_prepared(switch, &self.nets, prepared) {
            Some(prepared) => Ok(self.with(gain, prepared)),
            None => Ok(self.with(gain, prepare(alloc, switch, &self.nets, work)?)),
        }
    }

    // The same beside nets under the new set for which it was worked out already.
    fn under_beside(
        &self,
        alloc: Global,
        switch: &Switch,
        gain: Cents,
        prepared: Option<PreparedPortfolio>,
        others: &[PricedNets],
        work: &mut Work,
    ) -> Result<PortfolioRow, AllocError>
        requires side { IsPortfolioRow switch.now.old self.now }
        requires worth { unsigned_abs (self.now.worth +ℤ gain) ≤ 10 ^ 24 }
        requires prepared { IfSome prepared (IsPreparedPortfolio switch.now.new) }
        requires others { ArePriced switch.now.new others.now }
        ensures side { IfOk result (λ side. side ≡ portfolio_under switch.now.old switch.now.new gain self.now) }
        ensures limits { IfOk result (λ side. IsPortfolioRow switch.now.new side) }
        ensures idle { IsSomeAnd prepared (λ it. it.nets ≡ carried switch.now.old switch.now.new self.now.nets)
            → work.new ≡ work.old }
        ensures alike { IsBeside (carried switch.now.old switch.now.new self.now.nets) others.now → work.new ≡ work.old }
    {
        match still_prepared(switch, &self.nets, prepared) {
            Some(prepared) => Ok(self.with(gain, prepared)),
            None => Ok(self.with(
                gain,
                prepare_beside(alloc, switch, &self.nets, others, work)?,
            )),
        }
    }
}

// What was prepared of the portfolios of a unit, if anything was.
fn parts_of(prepared: Option<PreparedUnit>) -> Portfolios<Option<PreparedPortfolio>>
    ensures { result ≡ record {
      lots = option_map (λ (it : PreparedUnit). it.lots) prepared;
      buys = option_map (λ (it : PreparedUnit). it.buys) prepared;
      sales = option_map (λ (it : PreparedUnit). it.sales) prepared;
      all = option_map (λ (it : PreparedUnit). it.all) prepared;
    } }
{
    match prepared {
        Some(it) => Portfolios {
            lots: Some(it.lots),
            buys: Some(it.buys),
            sales: Some(it.sales),
            all: Some(it.all),
        },
        None => Portfolios {
            lots: None,
            buys: None,
            sales: None,
            all: None,
        },
    }
}

impl Row {
    /// The row under the new set of a switch, `gain` being how much more the unit's collateral is worth there: nets and
    /// sizes by the contracts' names. Nets and requirement that were prepared become its own where its nets are still
    /// the same, any other is worked out anew. An error says that memory was refused.
    pub fn under(
        &self,
        alloc: Global,
        switch: &Switch,
        gain: Cents,
        prepared: Option<PreparedUnit>,
        work: &mut Work,
    ) -> Result<Row, AllocError>
        requires row { IsRow switch.now.old self.now }
        requires prepared { IfSome prepared (IsPrepared switch.now.new) }
        requires worths { AreWorths (row_with_worth gain self.now) }
        ensures row { IfOk result (λ row. row ≡ row_under switch.now.old switch.now.new gain self.now) }
        ensures limits { IfOk result (λ row. IsRow switch.now.new row) }
        ensures idle { IsSomeAnd prepared (AreCarried switch.now.old switch.now.new (nets_in self.now))
            → work.new ≡ work.old }
    {
        let sizes = switch.carry(alloc, &self.sizes)?;
        let ready = parts_of(prepared);
        let lots = self.lots.under(alloc, switch, gain, ready.lots, work)?;
        let first = [lots.priced()];
        let buys = self
            .buys
            .under_beside(alloc, switch, gain, ready.buys, &first, work)?;
        let sales = self
            .sales
            .under_beside(alloc, switch, gain, ready.sales, &first, work)?;
        let others = [buys.priced(), sales.priced(), lots.priced()];
        let all = self
            .all
            .under_beside(alloc, switch, gain, ready.all, &others, work)?;
        Ok(Row {
            sizes,
            lots,
            buys,
            sales,
            all,
        })
    }

    /// The same with what was prepared of the unit, where that is known to be for the nets that it has: no nets are
    /// compared.
    pub fn taking(
        &self,
        alloc: Global,
        switch: &Switch,
        gain: Cents,
        prepared: PreparedUnit,
    ) -> Result<Row, AllocError>
        requires row { IsRow switch.now.old self.now }
        requires prepared { IsPrepared switch.now.new prepared }
        requires current { AreCarried switch.now.old switch.now.new (nets_in self.now) prepared }
        requires worths { AreWorths (row_with_worth gain self.now) }
        ensures row { IfOk result (λ row. row ≡ row_under switch.now.old switch.now.new gain self.now) }
        ensures limits { IfOk result (λ row. IsRow switch.now.new row) }
    {
        Ok(Row {
            sizes: switch.carry(alloc, &self.sizes)?,
            lots: self.lots.with(gain, prepared.lots),
            buys: self.buys.with(gain, prepared.buys),
            sales: self.sales.with(gain, prepared.sales),
            all: self.all.with(gain, prepared.all),
        })
    }

    /// Whether the new set has each contract in which the unit has a live lot or a hold.
    pub fn is_covered_by(&self, old: &ParamSet, new: &ParamSet) -> bool
        requires { IsRow old.now self.now }
        ensures { result ≡ is_covered old.now new.now self.now.sizes }
    {
        are_covered(&self.sizes, old, new)
    }

    /// Whether the lots require more than is there for them.
    pub fn is_on_call(&self) -> bool
        ensures { result ≡ row_on_call self.now }
    {
        self.lots.worth < self.lots.requirement
    }
}
