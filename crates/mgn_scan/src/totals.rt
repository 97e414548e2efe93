ghost use Rattle.std.specs.Prelude.{◌≡◌, ℤ, List, ◌+◌, ◌-◌, ◌*◌, ◌<◌, ◌≤◌, ◌^◌, pos, ◌+ℤ◌, ◌≤ℤ◌, unsigned_abs, length, min, replicate, slice_set, IfOk, IsTrue, ◌↔◌};
ghost use Rattle.mgn_span.specs.Positions.{IsNet, positions};
ghost use Rattle.mgn_span.specs.Requirement.{scan_of};
ghost use Rattle.mgn_span.specs.Scan.{active, price_risk2, scenario_total, value_at};
ghost use Rattle.mgn_params.specs.Tables.{Tables};
ghost use Rattle.mgn_scan.specs.Totals.{AreTotals};
ghost use Rattle.mgn_span.specs.Words.{totals_of};

use crate::row::ScanRow;
use mgn_nets::Nets;
use mgn_num::{Cents, Quantity};
use mgn_params::{ParamSet, Work};
use mgn_rows::SparseRows;
use mgn_span::scan::ScanRisks;
use std::alloc::{AllocError, Global};
use std::marker::Model;

/// The totals of the 16 scenarios of each commodity of a set, kept while the nets of its contracts change.
///
/// The nets themselves are the caller's. Contracts see the rows of totals, one for each commodity in file order;
/// `AreTotals set nets totals` says that they are the totals of these nets under this set.
#[derive(Drop)]
pub struct ScanTotals {
    rows: SparseRows<ScanRow>,
}

impl Model for ScanTotals {
    ghost use Rattle.std.specs.Prelude.{List, ℤ};

    ghost Value = { List (List ℤ) };

    ghost view = { λ t. t.rows };
}

impl ScanTotals {
    /// The totals of nets of 0 under a set. An error says that memory was refused; no later call takes any.
    pub fn new(alloc: Global, set: &ParamSet) -> Result<Self, AllocError>
        ensures { IfOk result (AreTotals set.now (replicate (length set.now.contracts) (pos 0))) }
    {
        set.limits();
        let rows = SparseRows::new(alloc, set.commodity_count(), ScanRow::NOTHING)?;
        Ok(ScanTotals { rows })
    }

    /// Whether there is one row for each commodity of a set.
    pub fn fits(&self, set: &ParamSet) -> bool
        ensures { IsTrue result ↔ (length self.now ≡ length set.now.commodities) }
    {
        self.rows.len() == set.commodity_count()
    }

    /// The totals of nets of 0 in place of what was kept, under each set that the rows fit. Takes no memory.
    pub fn flatten(&mut self)
        ensures { (set : Tables) → length self.old ≡ length set.commodities →
            AreTotals set (replicate (length set.contracts) (pos 0)) self.new }
    {
        self.rows.flatten(ScanRow::NOTHING);
    }

    /// Follows a change of one net: a quantity more of the contract at `i`, bought above 0 and sold below.
    ///
    /// The nets are those before the change, the set must be the one of the totals, and the changed net at most
    /// 10,000,000 in size. One array is read, whatever the number of contracts.
    pub fn add(
        &mut self,
        set: &ParamSet,
        nets: &Nets,
        i: usize,
        quantity: Quantity,
        work: &mut Work,
    )
        requires totals { AreTotals set.now nets.now self.old }
        requires contract { i < length set.now.contracts }
        requires net { IsNet (value_at nets.now i +ℤ quantity) }
        ensures totals { AreTotals set.now (slice_set nets.now i (value_at nets.now i +ℤ quantity)) self.new }
        ensures counted { work.new ≡ min (work.old + 1) (2 ^ 64 - 1) }
    {
        set.limits();
        let commodity = set.contract_at(i).commodity;
        self.rows.row_mut(commodity).add(set, i, quantity, work);
    }

    /// Takes over the totals of others for as many commodities. Takes no memory.
    pub fn copy_from(&mut self, others: &ScanTotals)
        requires { length self.old ≡ length others.now }
        ensures { self.new ≡ others.now }
    {
        self.rows.copy_from(&others.rows);
    }

    // The totals of a commodity.
    fn row(&self, commodity: usize) -> &ScanRow
        requires { commodity < length self.now }
        ensures { result.now ≡ totals_of self.now commodity }
    {
        self.rows.row(commodity)
    }

    /// The scan risk of a commodity in cents, 0 to 256 * 10^15: the largest total, or 0 where none is above it (CME
    /// SPAN).
    pub fn scan(&self, commodity: usize) -> Cents
        requires commodity { commodity < length self.now }
        ensures scan { (set : Tables) (nets : List ℤ) → AreTotals set nets self.now →
            result ≡ scan_of (positions set.contracts nets) commodity }
        ensures not_negative { pos 0 ≤ℤ result }
        ensures small { unsigned_abs result ≤ 256 * 10 ^ 15 }
    {
        self.row(commodity).scan()
    }

    /// The place of the active scenario of a commodity, 0 to 15: its number less 1. It is the lowest-numbered of those
    /// with the largest total (CME SPAN; the lowest of ties is of this profile).
    pub fn active(&self, commodity: usize) -> usize
        requires commodity { commodity < length self.now }
        ensures active { (set : Tables) (nets : List ℤ) → AreTotals set nets self.now →
            result ≡ active (scenario_total commodity (positions set.contracts nets)) }
        ensures scenario { result < 16 }
    {
        self.row(commodity).active()
    }

    /// Twice the price risk of a commodity in cents, 0 to 1.1 * 10^18 (own profile, after SPAN).
    pub fn price_risk2(&self, commodity: usize) -> Cents
        requires commodity { commodity < length self.now }
        ensures price_risk2 { (set : Tables) (nets : List ℤ) → AreTotals set nets self.now →
            result ≡ price_risk2 (scenario_total commodity (positions set.contracts nets)) }
        ensures not_negative { pos 0 ≤ℤ result }
        ensures small { unsigned_abs result ≤ 11 * 10 ^ 17 }
    {
        self.row(commodity).price_risk2()
    }

    /// The scan risk of a commodity and twice its price risk, as `scan` and `price_risk2` tell them. The totals are
    /// searched once.
    pub fn risks(&self, commodity: usize) -> ScanRisks
        requires commodity { commodity < length self.now }
        ensures scan { (set : Tables) (nets : List ℤ) → AreTotals set nets self.now →
            result.scan ≡ scan_of (positions set.contracts nets) commodity }
        ensures small_scan { unsigned_abs result.scan ≤ 256 * 10 ^ 15 }
        ensures price_risk2 { (set : Tables) (nets : List ℤ) → AreTotals set nets self.now →
            result.price_risk2 ≡ price_risk2 (scenario_total commodity (positions set.contracts nets)) }
        ensures not_negative { pos 0 ≤ℤ result.price_risk2 }
        ensures small { unsigned_abs result.price_risk2 ≤ 11 * 10 ^ 17 }
    {
        self.row(commodity).risks()
    }
}
