//! What changes of a unit under another set where each contract keeps its place: worths and requirements alone.

ghost use Rattle.std.specs.Prelude.{◌≡◌, ◌≤◌, ◌^◌, ◌+ℤ◌, ◌↔◌, IfOk, IfSome, IsSome, IsTrue, unsigned_abs};
ghost use Rattle.mgn_params.specs.Tables.{Tables};
ghost use Rattle.mgn_nets.specs.Portfolios.{AreNets};
ghost use Rattle.mgn_unit.specs.Amounts.{AreRequired, KeepsPlaces, amounts_with, portfolio_with_amounts, row_with_amounts};
ghost use Rattle.mgn_unit.specs.NewSets.{AreWorths, IsPrepared, IsPreparedPortfolio, IsRequired, carried, row_under};
ghost use Rattle.mgn_unit.specs.Prepared.{AreCarried, ArePriced, IsBeside};
ghost use Rattle.mgn_unit.specs.Rows.{IsPortfolioRow, IsRow, nets_in, row_with_worth};

use crate::new_set::Switch;
use crate::prepared::{required, required_beside};
use crate::row::{PortfolioRow, PreparedPortfolio, PreparedUnit, Priced, PricedNets, Row};
use mgn_nets::{Nets, Portfolios};
use mgn_num::Cents;
use mgn_params::Work;
use std::alloc::{AllocError, Global};

/// What is there for a portfolio, and what it must have deposited, in cents.
#[derive(Clone, Copy)]
pub struct Amounts {
    /// What is there for it, its holds counted as filled at their limits.
    pub worth: Cents,
    /// What it must have deposited.
    pub requirement: Cents,
}

/// The amounts of the four portfolios of a margin unit.
pub type UnitAmounts = Portfolios<Amounts>;

/// The rows of all margin units under another set.
#[derive(Drop)]
pub enum NewRows {
    /// Where each contract keeps its place, the rows stay, and these are their amounts by the units' numbers.
    Kept(Vec<UnitAmounts>),
    /// The rows by the units' numbers, made anew.
    Moved(Vec<Row>),
}

// What was prepared for nets that keep their places, where it was for these.
fn prepared_requirement(
    switch: &Switch,
    nets: &Nets,
    prepared: &PreparedPortfolio,
    is_current: bool,
) -> Option<Cents>
    requires nets { AreNets switch.now.old nets.now }
    requires keeps { KeepsPlaces switch.now.old switch.now.new }
    requires prepared { IsPreparedPortfolio switch.now.new prepared.now }
    requires current { IsTrue is_current → prepared.now.nets ≡ carried switch.now.old switch.now.new nets.now }
    ensures required { IfSome result (IsRequired switch.now.new nets.now) }
    ensures used { prepared.now.nets ≡ carried switch.now.old switch.now.new nets.now → IsSome result }
{
    if is_current || switch.carries(nets, &prepared.nets) {
        return Some(prepared.requirement);
    }
    None
}

impl PortfolioRow {
    // What the portfolio requires under the new set of a switch in which each contract keeps its place. What was
    // prepared is taken where it was for its nets.
    fn required_by(
        &self,
        alloc: Global,
        switch: &Switch,
        prepared: &PreparedPortfolio,
        is_current: bool,
        work: &mut Work,
    ) -> Result<Cents, AllocError>
        requires nets { AreNets switch.now.old self.now.nets }
        requires keeps { KeepsPlaces switch.now.old switch.now.new }
        requires prepared { IsPreparedPortfolio switch.now.new prepared.now }
        requires current { IsTrue is_current → prepared.now.nets ≡ carried switch.now.old switch.now.new self.now.nets }
        ensures required { IfOk result (IsRequired switch.now.new self.now.nets) }
        ensures idle { prepared.now.nets ≡ carried switch.now.old switch.now.new self.now.nets → work.new ≡ work.old }
    {
        match prepared_requirement(switch, &self.nets, prepared, is_current) {
            Some(requirement) => Ok(requirement),
            None => required(alloc, switch.new_set(), &self.nets, work),
        }
    }

    // The same beside other nets for which it was worked out already.
    fn required_by_beside(
        &self,
        alloc: Global,
        switch: &Switch,
        prepared: &PreparedPortfolio,
        is_current: bool,
        others: &[PricedNets],
        work: &mut Work,
    ) -> Result<Cents, AllocError>
        requires nets { AreNets switch.now.old self.now.nets }
        requires keeps { KeepsPlaces switch.now.old switch.now.new }
        requires prepared { IsPreparedPortfolio switch.now.new prepared.now }
        requires current { IsTrue is_current → prepared.now.nets ≡ carried switch.now.old switch.now.new self.now.nets }
        requires others { ArePriced switch.now.new others.now }
        ensures required { IfOk result (IsRequired switch.now.new self.now.nets) }
        ensures idle { prepared.now.nets ≡ carried switch.now.old switch.now.new self.now.nets → work.new ≡ work.old }
        ensures alike { IsBeside self.now.nets others.now → work.new ≡ work.old }
    {
        match prepared_requirement(switch, &self.nets, prepared, is_current) {
            Some(requirement) => Ok(requirement),
            None => required_beside(alloc, switch.new_set(), &self.nets, others, work),
        }
    }

    // The amounts with an amount more in worth, and another requirement.
    fn amounts(&self, gain: Cents, requirement: Cents) -> Amounts
        requires { unsigned_abs (self.now.worth +ℤ gain) ≤ 10 ^ 24 }
        ensures { result ≡ record { worth = self.now.worth +ℤ gain; requirement = requirement } }
    {
        Amounts {
            worth: self.worth.plus(gain),
            requirement,
        }
    }

    fn set_amounts(&mut self, amounts: &Amounts)
        ensures { self.new ≡ portfolio_with_amounts amounts.now self.old }
    {
        self.worth = amounts.worth;
        self.requirement = amounts.requirement;
    }
}

impl Row {
    /// The amounts of the portfolios with an amount more in worth, and these requirements.
    pub fn amounts(&self, gain: Cents, priced: &Priced) -> UnitAmounts
        requires { AreWorths (row_with_worth gain self.now) }
        ensures { result ≡ amounts_with gain priced.now self.now }
    {
        UnitAmounts {
            lots: self.lots.amounts(gain, priced.lots),
            buys: self.buys.amounts(gain, priced.buys),
            sales: self.sales.amounts(gain, priced.sales),
            all: self.all.amounts(gain, priced.all),
        }
    }

    // The nets beside which those with all holds are looked at: where one side alone is held, they are that side's.
    fn priced_before_all(&self, lots: Cents, buys: Cents, sales: Cents) -> [PricedNets<'_>; 3]
        ensures { (set : Tables) → IsRequired set self.now.lots.nets lots → IsRequired set self.now.buys.nets buys →
            IsRequired set self.now.sales.nets sales → ArePriced set result }
    {
        [
            self.buys.priced_at(buys),
            self.sales.priced_at(sales),
            self.lots.priced_at(lots),
        ]
    }

    // What the portfolios require under the new set of a switch in which each contract keeps its place.
    fn requirements_under(
        &self,
        alloc: Global,
        switch: &Switch,
        work: &mut Work,
    ) -> Result<Priced, AllocError>
        requires row { IsRow switch.now.old self.now }
        requires keeps { KeepsPlaces switch.now.old switch.now.new }
        ensures { IfOk result (AreRequired switch.now.new self.now) }
    {
        let set = switch.new_set();
        let lots = required(alloc, set, &self.lots.nets, work)?;
        let first = [self.lots.priced_at(lots)];
        let buys = required_beside(alloc, set, &self.buys.nets, &first, work)?;
        let sales = required_beside(alloc, set, &self.sales.nets, &first, work)?;
        let others = self.priced_before_all(lots, buys, sales);
        let all = required_beside(alloc, set, &self.all.nets, &others, work)?;
        Ok(Priced {
            lots,
            buys,
            sales,
            all,
        })
    }

    // The same by what was prepared of the unit.
    fn requirements_by(
        &self,
        alloc: Global,
        switch: &Switch,
        prepared: &PreparedUnit,
        is_current: bool,
        work: &mut Work,
    ) -> Result<Priced, AllocError>
        requires row { IsRow switch.now.old self.now }
        requires keeps { KeepsPlaces switch.now.old switch.now.new }
        requires prepared { IsPrepared switch.now.new prepared.now }
        requires current { IsTrue is_current → AreCarried switch.now.old switch.now.new (nets_in self.now) prepared.now }
        ensures required { IfOk result (AreRequired switch.now.new self.now) }
        ensures idle { AreCarried switch.now.old switch.now.new (nets_in self.now) prepared.now → work.new ≡ work.old }
    {
        let lots = self
            .lots
            .required_by(alloc, switch, &prepared.lots, is_current, work)?;
        let first = [self.lots.priced_at(lots)];
        let buys = self
            .buys
            .required_by_beside(alloc, switch, &prepared.buys, is_current, &first, work)?;
        let sales = self
            .sales
            .required_by_beside(alloc, switch, &prepared.sales, is_current, &first, work)?;
        let others = self.priced_before_all(lots, buys, sales);
        let all = self
            .all
            .required_by_beside(alloc, switch, &prepared.all, is_current, &others, work)?;
        Ok(Priced {
            lots,
            buys,
            sales,
            all,
        })
    }

    /// The amounts of the unit under the new set of a switch in which each contract keeps its place, `gain` being how
    /// much more the unit's collateral is worth there. An error says that memory was refused.
    pub fn amounts_under(
        &self,
        alloc: Global,
        switch: &Switch,
        gain: Cents,
        work: &mut Work,
    ) -> Result<UnitAmounts, AllocError>
        requires row { IsRow switch.now.old self.now }
        requires keeps { KeepsPlaces switch.now.old switch.now.new }
        requires worths { AreWorths (row_with_worth gain self.now) }
        ensures row { IfOk result (λ it. row_with_amounts it self.now ≡ row_under switch.now.old switch.now.new gain self.now) }
        ensures limits { IfOk result (λ it. IsRow switch.now.new (row_with_amounts it self.now)) }
    {
        let priced = self.requirements_under(alloc, switch, work)?;
        Ok(self.amounts(gain, &priced))
    }

    /// The same by what was prepared of the unit: requirements that were prepared are taken where its nets are still
    /// the same, which is looked at unless it is known, and any other is worked out anew.
    pub fn amounts_by(
        &self,
        alloc: Global,
        switch: &Switch,
        gain: Cents,
        prepared: &PreparedUnit,
        is_current: bool,
        work: &mut Work,
    ) -> Result<UnitAmounts, AllocError>
        requires row { IsRow switch.now.old self.now }
        requires keeps { KeepsPlaces switch.now.old switch.now.new }
        requires prepared { IsPrepared switch.now.new prepared.now }
        requires current { IsTrue is_current → AreCarried switch.now.old switch.now.new (nets_in self.now) prepared.now }
        requires worths { AreWorths (row_with_worth gain self.now) }
        ensures row { IfOk result (λ it. row_with_amounts it self.now ≡ row_under switch.now.old switch.now.new gain self.now) }
        ensures limits { IfOk result (λ it. IsRow switch.now.new (row_with_amounts it self.now)) }
        ensures idle { AreCarried switch.now.old switch.now.new (nets_in self.now) prepared.now → work.new ≡ work.old }
    {
        let priced = self.requirements_by(alloc, switch, prepared, is_current, work)?;
        Ok(self.amounts(gain, &priced))
    }

    /// The row with these amounts in place of its own.
    pub fn set_amounts(&mut self, amounts: &UnitAmounts)
        ensures { self.new ≡ row_with_amounts amounts.now self.old }
    {
        self.lots.set_amounts(&amounts.lots);
        self.buys.set_amounts(&amounts.buys);
        self.sales.set_amounts(&amounts.sales);
        self.all.set_amounts(&amounts.all);
    }
}
