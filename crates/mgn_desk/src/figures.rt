ghost use Rattle.std.specs.Prelude.{◌≡◌, ◌≢◌, ℕ, ◌*◌, ◌<◌, ◌≤◌, ◌^◌, ◌+ℤ◌, pos, unsigned_abs, length, replicate, slice_index, slice_set, false, IfOk, IsTrue, ◌↔◌, All, if◌then◌else◌};
ghost use Rattle.mgn_inter.specs.Credited.{AreCreditsOf};
ghost use Rattle.mgn_inter.specs.Rows.{named, names};
ghost use Rattle.mgn_span.specs.Words.{net_delta};
ghost use Rattle.mgn_params.specs.Tables.{Tables, contract_at, credit_spread_at, legs_of};
ghost use Rattle.mgn_span.specs.Positions.{IsNet, positions};
ghost use Rattle.mgn_span.specs.Requirement.{requirement};
ghost use Rattle.mgn_span.specs.Scan.{price_risk2, scenario_total, value_at};
ghost use Rattle.mgn_desk.specs.UnitLists.{AreLists, IsFollowed, nets_in};
ghost use Rattle.mgn_desk.specs.WorkedPortfolios.{AreFigures, AreFlatFigures, IsBehind, IsPortfolio, IsReady, with_credits, with_risks, worked, worked_risk};
ghost use Rattle.mgn_desk.specs.Risks.{IsRisk};
ghost use Rattle.mgn_desk.specs.declared.portfolio.Portfolio.{Portfolio};
ghost use Rattle.mgn_desk.specs.declared.unit_lists.UnitLists.{UnitLists};

use crate::portfolio::Portfolio;
use crate::risks::Risks;
use crate::unit_lists::UnitLists;
use mgn_inter::{InterCredits, Reworked, spread_at};
use mgn_num::{Cents, Quantity};
use mgn_option::OptionValue;
use mgn_params::{Leg, ParamSet};
use std::alloc::{AllocError, Global};

/// What is kept of a portfolio beside its lists: the intercommodity credits, the risk of each commodity, and the net option
/// value.
///
/// `IsPortfolio` ties lists and figures to the set; the requirement then answers by the definition over the nets. Nothing
/// but `new` takes memory.
#[derive(Drop)]
pub(crate) struct Figures {
    pub credits: InterCredits,
    pub risks: Risks,
    pub value: OptionValue,
}

impl Figures {
    /// The figures of nets of 0. The only error is that memory was refused.
    pub fn new(alloc: Global, set: &ParamSet) -> Result<Figures, AllocError>
        ensures { IfOk result (AreFlatFigures set.now) }
    {
        set.limits();
        Ok(Figures {
            credits: InterCredits::new(alloc, set)?,
            risks: Risks::new(alloc, set.commodity_count())?,
            value: OptionValue::ZERO,
        })
    }

    /// Whether there are as many of each as a set asks for.
    pub fn fits(&self, set: &ParamSet) -> bool
        ensures { IsTrue result ↔ AreFigures set.now self.now }
    {
        self.credits.fits(set) && self.risks.len() == set.commodity_count()
    }

    /// The figures of nets of 0 in place of these, under a set that they fit.
    pub fn flatten(&mut self, set: &ParamSet)
        requires { AreFigures set.now self.old }
        ensures { AreFlatFigures set.now self.new }
    {
        self.credits.flatten(set);
        self.risks.flatten();
        self.value = OptionValue::ZERO;
    }

    /// Takes over the figures of another portfolio for a set that both fit.
    pub fn copy_from(&mut self, other: &Figures)
        requires { (set : Tables) × AreFigures set self.old × AreFigures set other.now }
        ensures { self.new ≡ other.now }
    {
        self.credits.copy_from(&other.credits);
        self.risks.copy_from(&other.risks);
        self.value = other.value;
    }

    /// Follows a quantity more of a contract that the lists have followed, while what hangs on the rows waits.
    pub fn add(
        &mut self,
        set: &ParamSet,
        lists: &UnitLists,
        portfolio: Portfolio,
        i: usize,
        quantity: Quantity,
    )
        requires lists { AreLists set.now lists.now }
        requires contract { i < length set.now.contracts }
        requires behind { (old : UnitLists)
            × IsBehind set.now (contract_at set.now.contracts i).commodity (worked portfolio old self.old)
            × IsFollowed set.now i quantity portfolio old lists.now
            × IsNet (value_at (nets_in portfolio old) i +ℤ quantity) }
        ensures behind { IsBehind set.now (contract_at set.now.contracts i).commodity (worked portfolio lists.now self.new) }
        ensures figures { AreFigures set.now self.old → AreFigures set.now self.new }
    {
        set.limits();
        if quantity.size() != 0 {
            self.value.follow(set, i, quantity);
        }
    }

    // Brings the credits after the rows.
    fn refresh(
        &mut self,
        set: &ParamSet,
        lists: &UnitLists,
        portfolio: Portfolio,
        g: usize,
    ) -> Reworked
        requires lists { AreLists set.now lists.now }
        requires commodity { g < length set.now.commodities }
        requires behind { IsBehind set.now g (worked portfolio lists.now self.old) }
        ensures written { self.new ≡ record self.old { credits = self.new.credits } }
        ensures ready { IsReady set.now (worked portfolio lists.now self.new) }
        ensures places { All (λ i. i < length set.now.credits) result }
        ensures others { (k : ℕ) → named k set.now.credits result ≡ false →
            slice_index self.new.credits.credits k ≡ slice_index self.old.credits.credits k }
    {
        let row = lists.row(portfolio, g);
        self.credits
            .refresh(set, g, row.net_delta(), row.doubled_risk())
    }

    // The risk of the commodity at a place, by what is kept.
    fn risk(&self, lists: &UnitLists, portfolio: Portfolio, g: usize) -> Cents
        requires { (set : Tables) × AreLists set lists.now × IsReady set (worked portfolio lists.now self.now)
            × (g < length set.commodities) }
        ensures risk { result ≡ worked_risk (worked portfolio lists.now self.now) g }
        ensures small { IsRisk result }
    {
        let row = lists.row(portfolio, g);
        row.charge()
            .minus(self.credits.credit(g))
            .larger(row.least())
    }

    // Writes the risk of the commodity at a place.
    fn mend(&mut self, lists: &UnitLists, portfolio: Portfolio, g: usize)
        requires ready { (set : Tables) × AreLists set lists.now × IsReady set (worked portfolio lists.now self.old)
            × (g < length set.commodities) }
        requires risks { g < length self.old.risks }
        ensures { self.new ≡ record self.old { risks = slice_set self.old.risks g (worked_risk (worked portfolio lists.now self.old) g) } }
    {
        let risk = self.risk(lists, portfolio, g);
        self.risks.write(g, risk);
    }

    // Writes the risks of the commodities of legs.
    fn mend_legs(&mut self, lists: &UnitLists, portfolio: Portfolio, legs: &[Leg])
        requires ready { (set : Tables)
            × AreLists set lists.now
            × IsReady set (worked portfolio lists.now self.old)
            × (length self.old.risks ≡ length set.commodities)
            × All (λ leg. leg.commodity < length set.commodities) legs.now }
        ensures kept { self.new ≡ record self.old { risks = self.new.risks } }
        ensures long { length self.new.risks ≡ length self.old.risks }
        ensures risks { (k : ℕ) → k < length self.old.risks → value_at self.new.risks k ≡
            (if names k legs.now then worked_risk (worked portfolio lists.now self.old) k else value_at self.old.risks k) }
    {
        for leg in legs {
            self.mend(lists, portfolio, leg.commodity);
        }
    }

    // Writes the risks of the commodities that the spread at a place names.
    fn mend_spread(&mut self, set: &ParamSet, lists: &UnitLists, portfolio: Portfolio, i: usize)
        requires lists { AreLists set.now lists.now }
        requires ready { IsReady set.now (worked portfolio lists.now self.old) }
        requires risks { length self.old.risks ≡ length set.now.commodities }
        requires place { i < length set.now.credits }
        ensures kept { self.new ≡ record self.old { risks = self.new.risks } }
        ensures long { length self.new.risks ≡ length self.old.risks }
        ensures risks { (k : ℕ) → k < length self.old.risks → value_at self.new.risks k ≡
            (if names k (legs_of (credit_spread_at set.now.credits i)) then worked_risk (worked portfolio lists.now self.old) k else value_at self.old.risks k) }
    {
        set.limits();
        let spread = spread_at(set.credits(), i);
        self.mend_legs(lists, portfolio, &spread.legs[..spread.count]);
    }

    // Writes the risks of the commodities that the spreads at some places name.
    fn mend_spreads(
        &mut self,
        set: &ParamSet,
        lists: &UnitLists,
        portfolio: Portfolio,
        places: Reworked,
    )
        requires lists { AreLists set.now lists.now }
        requires ready { IsReady set.now (worked portfolio lists.now self.old) }
        requires risks { length self.old.risks ≡ length set.now.commodities }
        requires places { All (λ i. i < length set.now.credits) places }
        ensures kept { self.new ≡ record self.old { risks = self.new.risks } }
        ensures long { length self.new.risks ≡ length self.old.risks }
        ensures risks { (k : ℕ) → k < length self.old.risks → value_at self.new.risks k ≡
            (if named k set.now.credits places then worked_risk (worked portfolio lists.now self.old) k else value_at self.old.risks k) }
    {
        let mut left = places;
        while let Some(place) = left.pop_first() {
            self.mend_spread(set, lists, portfolio, place);
        }
    }

    /// Brings all that is kept after the rows of a commodity.
    pub fn settle(&mut self, set: &ParamSet, lists: &UnitLists, portfolio: Portfolio, g: usize)
        requires lists { AreLists set.now lists.now }
        requires commodity { g < length set.now.commodities }
        requires behind { IsBehind set.now g (worked portfolio lists.now self.old) }
        ensures portfolio { IsPortfolio set.now (worked portfolio lists.now self.new) }
        ensures figures { AreFigures set.now self.old → AreFigures set.now self.new }
    {
        let reworked = self.refresh(set, lists, portfolio, g);
        self.mend(lists, portfolio, g);
        self.mend_spreads(set, lists, portfolio, reworked);
    }

    /// Brings what hangs on the rows of a commodity after them, unless it is to wait for those of the same one.
    pub fn turn_to(
        &mut self,
        set: &ParamSet,
        lists: &UnitLists,
        portfolio: Portfolio,
        g: usize,
        next: usize,
    )
        requires lists { AreLists set.now lists.now }
        requires commodity { g < length set.now.commodities }
        requires behind { IsBehind set.now g (worked portfolio lists.now self.old) }
        ensures behind { IsBehind set.now next (worked portfolio lists.now self.new) }
        ensures figures { AreFigures set.now self.old → AreFigures set.now self.new }
    {
        if next != g {
            self.settle(set, lists, portfolio, g);
        }
    }

    /// Brings all that is kept after a quantity more of a contract that the lists have followed. One of 0 costs nothing.
    pub fn follow(
        &mut self,
        set: &ParamSet,
        lists: &UnitLists,
        portfolio: Portfolio,
        i: usize,
        quantity: Quantity,
    )
        requires lists { AreLists set.now lists.now }
        requires contract { i < length set.now.contracts }
        requires before { (old : UnitLists)
            × IsPortfolio set.now (worked portfolio old self.old)
            × IsFollowed set.now i quantity portfolio old lists.now
            × IsNet (value_at (nets_in portfolio old) i +ℤ quantity) }
        ensures portfolio { IsPortfolio set.now (worked portfolio lists.now self.new) }
        ensures figures { AreFigures set.now self.old → AreFigures set.now self.new }
    {
        set.limits();
        if quantity.size() != 0 {
            self.add(set, lists, portfolio, i, quantity);
            self.settle(set, lists, portfolio, set.contract_at(i).commodity);
        }
    }

    /// What the portfolio must have deposited, in cents, 0 to 10^30: the sum of the commodities' risks less the net
    /// option value (CME SPAN), or 0 where that is negative (own profile). It takes the same time whatever the set.
    pub fn requirement(&self) -> Cents
        ensures requirement { (set : Tables) (w : Portfolio) (l : UnitLists) → IsPortfolio set (worked w l self.now) →
            result ≡ requirement set (nets_in w l) }
        ensures small { unsigned_abs result ≤ 10 ^ 30 }
    {
        self.risks.sum().minus(self.value.cents()).or_zero()
    }
}
