ghost use Rattle.std.specs.Prelude.{◌≡◌, ℕ, ◌+◌, ◌-◌, ◌*◌, ◌<◌, ◌≤◌, ◌^◌, pos, ◌+ℤ◌, ◌*ℤ◌, ◌≤ℤ◌, unsigned_abs, length, min};
ghost use Rattle.mgn_params.specs.Tables.{contract_at};
ghost use Rattle.mgn_span.specs.Scan.{active, price_risk2, scan_risk, value_at};
ghost use Rattle.mgn_span.specs.Sizes.{IsTotal};

use mgn_num::{Cents, Quantity};
use mgn_params::{ParamSet, Work};
use mgn_span::Total;
use mgn_span::scan::{
    ScanRisks, active_scenario, add_scaled, both_risks, doubled_risk, largest_total,
};
use std::marker::Model;

/// The totals of the 16 scenarios of one commodity, in cents, each at most 256 * 10^15 in size. Contracts see the
/// totals.
#[derive(Clone, Copy)]
pub struct ScanRow {
    totals: [Total; 16],
}

impl Model for ScanRow {
    ghost use Rattle.std.specs.Prelude.{List, ℤ};

    ghost Value = { List ℤ };

    ghost view = { λ r. r.totals };

    ghost inverse = { λ totals. record { totals = totals } };
}

impl ScanRow {
    /// The totals of a commodity of which nothing is held: each is 0.
    pub const NOTHING: ScanRow = ScanRow {
        totals: [Total::ZERO; 16],
    };

    /// Adds a quantity of the contract at `i`, bought above 0 and sold below, at most 20,000,000 in size: each total
    /// moves by the contract's array times the quantity. One array is read.
    pub fn add(&mut self, set: &ParamSet, i: usize, quantity: Quantity, work: &mut Work)
        requires contract { i < length set.now.contracts }
        requires quantity { unsigned_abs quantity ≤ 2 * 10 ^ 7 }
        requires room { (s : ℕ) → s < 16 →
            IsTotal (value_at self.old s +ℤ quantity *ℤ value_at (contract_at set.now.contracts i).array s) }
        ensures totals { (s : ℕ) → s < 16 →
            value_at self.new s ≡ value_at self.old s +ℤ quantity *ℤ value_at (contract_at set.now.contracts i).array s }
        ensures counted { work.new ≡ min (work.old + 1) (2 ^ 64 - 1) }
    {
        set.limits();
        add_scaled(&mut self.totals, set.array(i, work), quantity);
    }

    /// The scan risk in cents, 0 to 256 * 10^15: the largest total, or 0 where none is above it (CME SPAN).
    pub fn scan(&self) -> Cents
        ensures scan { result ≡ scan_risk (value_at self.now) }
        ensures not_negative { pos 0 ≤ℤ result }
        ensures small { unsigned_abs result ≤ 256 * 10 ^ 15 }
    {
        largest_total(&self.totals)
    }

    /// The place of the active scenario, 0 to 15: its number less 1. It is the lowest-numbered of those with the largest
    /// total (CME SPAN; the lowest of ties is of this profile).
    pub fn active(&self) -> usize
        ensures active { result ≡ active (value_at self.now) }
        ensures scenario { result < 16 }
    {
        active_scenario(&self.totals)
    }

    /// Twice the price risk in cents, 0 to 1.1 * 10^18 (own profile, after SPAN).
    pub fn price_risk2(&self) -> Cents
        ensures price_risk2 { result ≡ price_risk2 (value_at self.now) }
        ensures not_negative { pos 0 ≤ℤ result }
        ensures small { unsigned_abs result ≤ 11 * 10 ^ 17 }
    {
        doubled_risk(&self.totals)
    }

    /// The scan risk and twice the price risk, as `scan` and `price_risk2` tell them. The totals are searched once.
    pub fn risks(&self) -> ScanRisks
        ensures scan { result.scan ≡ scan_risk (value_at self.now) }
        ensures small_scan { unsigned_abs result.scan ≤ 256 * 10 ^ 15 }
        ensures price_risk2 { result.price_risk2 ≡ price_risk2 (value_at self.now) }
        ensures not_negative { pos 0 ≤ℤ result.price_risk2 }
        ensures small { unsigned_abs result.price_risk2 ≤ 11 * 10 ^ 17 }
    {
        both_risks(&self.totals)
    }
}
