ghost use Rattle.std.specs.Prelude.{◌≡◌, ◌<◌, ◌≤◌, ◌^◌, ◌+ℤ◌, ◌||◌, All, IfOk, Ok, int_lt, length, pos, unsigned_abs};
ghost use Rattle.mgn_num.specs.Amount.{IsQuantity};
ghost use Rattle.mgn_span.specs.Positions.{IsNet};
ghost use Rattle.mgn_span.specs.Requirement.{requirement};
ghost use Rattle.mgn_span.specs.Scan.{value_at};
ghost use Rattle.mgn_unit.specs.Rows.{GainsAlike, IsRow, IsPortfolioRow, IsGain, IsChange, IsRoomy, PricesPortfolio, Prices, row_figures, least_portfolio, lesser, more_at, no_row, no_portfolio, portfolio_room, row_with, row_with_worth, portfolio_with, portfolio_with_worth};

use crate::change::{Change, Gain};
use crate::prepared::required;
use crate::row::{PortfolioRow, Priced, Row};
use mgn_machine::UnitFigures;
use mgn_nets::Nets;
use mgn_num::Cents;
use mgn_params::{ParamSet, Work};
use std::alloc::{AllocError, Global};

impl PortfolioRow {
    /// A portfolio in which nothing is held.
    pub fn flat(alloc: Global, set: &ParamSet) -> Result<PortfolioRow, AllocError>
        ensures { IfOk result (λ side. side ≡ no_portfolio set.now) }
    {
        set.limits();
        let nets = Nets::flat(alloc, set.contract_count())?;
        Ok(PortfolioRow {
            nets,
            worth: Cents::ZERO,
            requirement: Cents::ZERO,
        })
    }

    /// What the portfolio would have to have deposited with what it gains in a contract. It stays as it is.
    pub fn priced_with(
        &mut self,
        alloc: Global,
        set: &ParamSet,
        contract: usize,
        gain: &Gain,
        work: &mut Work,
    ) -> Result<Cents, AllocError>
        requires contract { contract < length set.now.contracts }
        requires side { IsPortfolioRow set.now self.old }
        requires gain { IsGain gain.now }
        requires after { All IsNet (more_at self.old.nets contract gain.now.quantity) }
        ensures same { self.new ≡ self.old }
        ensures requirement { IfOk result (λ r. PricesPortfolio set.now contract gain.now self.old r) }
    {
        self.nets.add(contract, gain.quantity);
        let priced = required(alloc, set, &self.nets, work);
        self.nets.add(contract, gain.quantity.negated());
        priced
    }

    /// The same beside another portfolio, for which it was worked out already: where nets and gain are equal, so is
    /// what they require.
    pub fn priced_beside(
        &mut self,
        alloc: Global,
        set: &ParamSet,
        contract: usize,
        gain: &Gain,
        other: &PortfolioRow,
        other_gain: &Gain,
        other_priced: Cents,
        work: &mut Work,
    ) -> Result<Cents, AllocError>
        requires contract { contract < length set.now.contracts }
        requires side { IsPortfolioRow set.now self.old }
        requires gain { IsGain gain.now }
        requires after { All IsNet (more_at self.old.nets contract gain.now.quantity) }
        requires other { PricesPortfolio set.now contract other_gain.now other.now other_priced }
        ensures same { self.new ≡ self.old }
        ensures requirement { IfOk result (λ r. PricesPortfolio set.now contract gain.now self.old r) }
        ensures taken { GainsAlike self.old other.now gain.now other_gain.now → result ≡ Ok other_priced }
        ensures idle { GainsAlike self.old other.now gain.now other_gain.now → work.new ≡ work.old }
    {
        if gain.quantity == other_gain.quantity && self.nets.is_same(&other.nets) {
            return Ok(other_priced);
        }
        self.priced_with(alloc, set, contract, gain, work)
    }

    /// The portfolio gains in a contract, and then requires what was worked out.
    pub fn gain(&mut self, set: &ParamSet, contract: usize, gain: &Gain, requirement: Cents)
        requires contract { contract < length set.now.contracts }
        requires side { IsPortfolioRow set.now self.old }
        requires gain { IsGain gain.now }
        requires after { All IsNet (more_at self.old.nets contract gain.now.quantity) }
        requires priced { PricesPortfolio set.now contract gain.now self.old requirement }
        ensures { self.new ≡ portfolio_with set.now contract gain.now self.old }
    {
        self.nets.add(contract, gain.quantity);
        self.worth = self.worth.plus(gain.worth.cents());
        self.requirement = requirement;
    }

    /// The portfolio gains in worth alone.
    pub fn gain_worth(&mut self, set: &ParamSet, amount: Cents)
        requires side { IsPortfolioRow set.now self.old }
        requires amount { unsigned_abs amount ≤ 10 ^ 24 }
        ensures { self.new ≡ portfolio_with_worth amount self.old }
    {
        self.worth = self.worth.plus(amount);
    }

    /// Whether the portfolio would have room below 0 with an amount more in worth.
    fn lacks_room_with(&self, set: &ParamSet, amount: Cents) -> bool
        requires side { IsPortfolioRow set.now self.now }
        requires amount { unsigned_abs amount ≤ 10 ^ 24 }
        ensures { result ≡ int_lt (portfolio_room (portfolio_with_worth amount self.now)) (pos 0) }
    {
        self.worth.plus(amount).minus(self.requirement) < Cents::ZERO
    }

    /// What the portfolio has above its requirement.
    pub fn room(&self, set: &ParamSet) -> Cents
        requires { IsPortfolioRow set.now self.now }
        ensures { result ≡ portfolio_room self.now }
    {
        self.worth.minus(self.requirement)
    }
}

impl Row {
    /// The row of a unit that has nothing.
    pub fn flat(alloc: Global, set: &ParamSet) -> Result<Row, AllocError>
        ensures { IfOk result (λ row. row ≡ no_row set.now) }
    {
        set.limits();
        let sizes = Nets::flat(alloc, set.contract_count())?;
        let lots = PortfolioRow::flat(alloc, set)?;
        let buys = PortfolioRow::flat(alloc, set)?;
        let sales = PortfolioRow::flat(alloc, set)?;
        let all = PortfolioRow::flat(alloc, set)?;
        Ok(Row {
            sizes,
            lots,
            buys,
            sales,
            all,
        })
    }

    /// What the portfolios would have to have deposited after a change. The row stays as it is.
    pub fn priced_with(
        &mut self,
        alloc: Global,
        set: &ParamSet,
        change: &Change,
        work: &mut Work,
    ) -> Result<Priced, AllocError>
        requires row { IsRow set.now self.old }
        requires change { IsChange set.now change.now }
        requires roomy { IsRoomy change.now self.old }
        ensures same { self.new ≡ self.old }
        ensures priced { IfOk result (λ priced. Prices set.now change.now self.old priced) }
    {
        let contract = change.contract;
        let lots = self
            .lots
            .priced_with(alloc, set, contract, &change.lots, work)?;
        let buys = self.buys.priced_beside(
            alloc,
            set,
            contract,
            &change.buys,
            &self.lots,
            &change.lots,
            lots,
            work,
        )?;
        let sales = self.sales.priced_beside(
            alloc,
            set,
            contract,
            &change.sales,
            &self.lots,
            &change.lots,
            lots,
            work,
        )?;
        let all = self.all.priced_beside(
            alloc,
            set,
            contract,
            &change.all,
            &self.lots,
            &change.lots,
            lots,
            work,
        )?;
        Ok(Priced {
            lots,
            buys,
            sales,
            all,
        })
    }

    /// The row changes, and its portfolios then require what was worked out.
    pub fn apply(&mut self, set: &ParamSet, change: &Change, priced: &Priced)
        requires row { IsRow set.now self.old }
        requires change { IsChange set.now change.now }
        requires roomy { IsRoomy change.now self.old }
        requires priced { Prices set.now change.now self.old priced.now }
        ensures { self.new ≡ row_with set.now change.now self.old }
    {
        let contract = change.contract;
        self.sizes.add(contract, change.size);
        self.lots.gain(set, contract, &change.lots, priced.lots);
        self.buys.gain(set, contract, &change.buys, priced.buys);
        self.sales.gain(set, contract, &change.sales, priced.sales);
        self.all.gain(set, contract, &change.all, priced.all);
    }

    /// The portfolios gain in worth alone.
    pub fn gain_worth(&mut self, set: &ParamSet, amount: Cents)
        requires row { IsRow set.now self.old }
        requires amount { unsigned_abs amount ≤ 10 ^ 24 }
        ensures { self.new ≡ row_with_worth amount self.old }
    {
        self.lots.gain_worth(set, amount);
        self.buys.gain_worth(set, amount);
        self.sales.gain_worth(set, amount);
        self.all.gain_worth(set, amount);
    }

    /// Whether a portfolio would have room below 0 with an amount more in worth.
    pub fn lacks_room_with(&self, set: &ParamSet, amount: Cents) -> bool
        requires row { IsRow set.now self.now }
        requires amount { unsigned_abs amount ≤ 10 ^ 24 }
        ensures { result ≡ int_lt (portfolio_room (least_portfolio (row_with_worth amount self.now))) (pos 0) }
    {
        let lots = self.lots.lacks_room_with(set, amount);
        let buys = self.buys.lacks_room_with(set, amount);
        let sales = self.sales.lacks_room_with(set, amount);
        let all = self.all.lacks_room_with(set, amount);
        any_of(lots, buys, sales, all)
    }

    /// The first portfolio with the least room, in the order lots, buys, sales, all.
    pub fn least_portfolio(&self, set: &ParamSet) -> &PortfolioRow
        requires { IsRow set.now self.now }
        ensures side { result.now ≡ least_portfolio self.now }
        ensures limits { IsPortfolioRow set.now result.now }
    {
        lesser(
            set,
            lesser(set, lesser(set, &self.lots, &self.buys), &self.sales),
            &self.all,
        )
    }

    /// The figures of the unit.
    pub fn figures(&self, set: &ParamSet) -> UnitFigures
        requires { IsRow set.now self.now }
        ensures { result ≡ row_figures self.now }
    {
        let least = self.least_portfolio(set);
        UnitFigures {
            requirement: self.lots.requirement,
            exposure_requirement: least.requirement,
            value: self.lots.worth,
            exposure_value: least.worth,
            room: least.room(set),
        }
    }
}

// The one of two portfolios that has less room; the first of equals.
fn lesser<'a>(set: &ParamSet, first: &'a PortfolioRow, second: &'a PortfolioRow) -> &'a PortfolioRow
    requires first { IsPortfolioRow set.now first.now }
    requires second { IsPortfolioRow set.now second.now }
    ensures side { result.now ≡ lesser first.now second.now }
    ensures limits { IsPortfolioRow set.now result.now }
{
    if second.room(set) < first.room(set) {
        second
    } else {
        first
    }
}

// Whether one of four answers is yes.
fn any_of(lots: bool, buys: bool, sales: bool, all: bool) -> bool
    ensures { result ≡ (lots || buys || sales || all) }
{
    if lots {
        return true;
    }
    if buys {
        return true;
    }
    if sales {
        return true;
    }
    all
}
