ghost use Rattle.std.specs.Prelude.{◌≡◌, ◌*◌, ◌<◌, ◌≤◌, ◌^◌, ◌+ℤ◌, unsigned_abs, pos, length, replicate, slice_set, IfOk, IsTrue, ◌↔◌};
ghost use Rattle.mgn_span.specs.MonthDeltas.{intra_charge_by, net_delta_by, spot_charge_by};
ghost use Rattle.mgn_span.specs.Scan.{value_at};
ghost use Rattle.mgn_params.specs.Tables.{month_at, Tables};
ghost use Rattle.mgn_tiers.specs.Tiers.{AreTiersOf, AreTierRows};
ghost use Rattle.mgn_span.specs.Sizes.{IsDelta};

use crate::row::TierRow;
use mgn_num::{Cents, TenThousandths};
use mgn_params::ParamSet;
use mgn_params::rows::{fill, filled};
use mgn_rows::SparseRows;
use mgn_span::{Delta, delta_at};
use std::alloc::{AllocError, Global};
use std::marker::Model;

/// What the spreads within the commodities of a set and their spot months charge, and the net deltas, kept under changes
/// of the deltas of months.
///
/// Contracts see the month deltas that the changes so far add up to, in ten-thousandths, one for each month of the set in
/// file order, beside the rows that are kept. `AreTiersOf` ties all of them to the set: `new` gives it, `add` asks for it
/// and keeps it, and the questions answer by the definitions over these deltas. Nothing but `new` takes memory.
#[derive(Drop)]
pub struct TierStages {
    deltas: Vec<Delta>,
    rows: SparseRows<TierRow>,
}

impl Model for TierStages {
    ghost use Rattle.mgn_tiers.specs.Tiers.{Tiers};

    ghost Value = { Tiers };

    ghost use Rattle.mgn_tiers.specs.TierRows.{tiers_of};

    ghost view = { tiers_of };
}

impl TierStages {
    /// Nothing held: each month delta is 0. The only error is that memory was refused.
    pub fn new(alloc: Global, set: &ParamSet) -> Result<TierStages, AllocError>
        ensures of_set { IfOk result (AreTiersOf set.now) }
        ensures none { IfOk result (λ t. t.deltas ≡ replicate (length set.now.months) (pos 0)) }
    {
        set.limits();
        Ok(TierStages {
            deltas: filled(alloc, set.month_count(), Delta::ZERO)?,
            rows: SparseRows::new(alloc, set.commodity_count(), TierRow::NOTHING)?,
        })
    }

    /// Whether there is one delta for each month of a set, and one row of each kind for each of its commodities.
    pub fn fits(&self, set: &ParamSet) -> bool
        ensures { IsTrue result ↔ AreTierRows set.now self.now }
    {
        self.deltas.len() == set.month_count() && self.rows.len() == set.commodity_count()
    }

    /// Nothing held in place of what was kept, under each set that the rows fit. Takes no memory.
    pub fn flatten(&mut self)
        ensures of_set { (set : Tables) → AreTierRows set self.old → AreTiersOf set self.new }
        ensures none { self.new.deltas ≡ replicate (length self.old.deltas) (pos 0) }
    {
        fill(&mut self.deltas, Delta::ZERO);
        self.rows.flatten(TierRow::NOTHING);
    }

    /// Adds to the delta of the month at a place, in ten-thousandths. The stages of its commodity are formed again
    /// where that changes what a leg starts with. The resulting month delta and net delta are at most 2.56 * 10^14 in size.
    pub fn add(&mut self, set: &ParamSet, month: usize, delta: TenThousandths)
        requires of_set { AreTiersOf set.now self.old }
        requires month { month < length set.now.months }
        requires month_delta { IsDelta (value_at self.old.deltas month +ℤ delta) }
        requires net_delta { IsDelta (net_delta_by set.now.months self.old.deltas (month_at set.now.months month).commodity +ℤ delta) }
        ensures deltas { self.new.deltas ≡ slice_set self.old.deltas month (value_at self.old.deltas month +ℤ delta) }
        ensures of_set { AreTiersOf set.now self.new }
    {
        set.limits();
        let row = self.rows.row_mut(set.month_at(month).commodity);
        row.add(set, month, &mut self.deltas[month], delta);
    }

    /// Takes over what is kept for a set that the rows fit. Takes no memory.
    pub fn copy_from(&mut self, others: &TierStages)
        requires { (set : Tables) × AreTierRows set self.old × AreTierRows set others.now }
        ensures { self.new ≡ others.now }
    {
        self.deltas.copy_from_slice(&others.deltas);
        self.rows.copy_from(&others.rows);
    }

    /// The delta of the month at a place, in ten-thousandths: what the changes so far add up to.
    pub fn month_delta(&self, month: usize) -> TenThousandths
        requires { month < length self.now.deltas }
        ensures value { result ≡ value_at self.now.deltas month }
        ensures small { IsDelta result }
    {
        delta_at(&self.deltas, month).ten_thousandths()
    }

    /// What the intracommodity spreads of the commodity at a place charge, in cents (CME SPAN).
    pub fn charge(&self, g: usize) -> Cents
        requires { (set : Tables) × AreTiersOf set self.now × (g < length set.commodities) }
        ensures value { (set : Tables) → AreTiersOf set self.now → result ≡ pos (intra_charge_by set self.now.deltas g) }
        ensures small { unsigned_abs result ≤ 2 * 10 ^ 27 }
    {
        self.rows.row(g).charge()
    }

    /// The spot month charge of the commodity at a place, in cents, 0 where it has none.
    pub fn spot(&self, g: usize) -> Cents
        requires { (set : Tables) × AreTiersOf set self.now × (g < length set.commodities) }
        ensures value { (set : Tables) → AreTiersOf set self.now → result ≡ pos (spot_charge_by set self.now.deltas g) }
        ensures small { unsigned_abs result ≤ 10 ^ 26 }
    {
        self.rows.row(g).spot()
    }

    /// The net delta of the commodity at a place: the sum of its month deltas, in ten-thousandths (CME SPAN).
    pub fn net_delta(&self, g: usize) -> TenThousandths
        requires { (set : Tables) × AreTiersOf set self.now × (g < length set.commodities) }
        ensures value { (set : Tables) → AreTiersOf set self.now → result ≡ net_delta_by set.months self.now.deltas g }
        ensures small { IsDelta result }
    {
        self.rows.row(g).net_delta()
    }
}
