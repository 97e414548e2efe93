//! Scan risk and price risk by the totals of the 16 scenarios of a commodity.

ghost use Rattle.std.specs.Prelude.{◌≡◌, ℕ, ◌+◌, ◌*◌, ◌<◌, ◌≤◌, ◌^◌, ℤ, pos, ◌+ℤ◌, ◌*ℤ◌, ◌≤ℤ◌, unsigned_abs};
ghost use Rattle.std.specs.Int.{int_max};
ghost use Rattle.mgn_span.specs.Scan.{active, pair_of, price_risk2, scan_risk, value_at};
ghost use Rattle.mgn_span.specs.Words.{price_risk2_at};
ghost use Rattle.mgn_span.specs.Sizes.{IsTotal};

use crate::total::Total;
use mgn_num::{Cents, Quantity};

/// The scan risk of a commodity and twice its price risk, in cents.
#[derive(Clone, Copy, PartialEq, Eq, Debug)]
pub struct ScanRisks {
    pub scan: Cents,
    pub price_risk2: Cents,
}

// The total of a scenario, by its place.
fn total_at(totals: &[Total; 16], scenario: usize) -> Total
    requires { scenario < 16 }
    ensures { result ≡ value_at totals.now scenario }
{
    totals[scenario]
}

/// Adds a quantity of a contract, by its array, to the totals of the 16 scenarios.
pub fn add_scaled(totals: &mut [Total; 16], array: &[i32; 16], quantity: Quantity)
    requires quantity { unsigned_abs quantity ≤ 2 * 10 ^ 7 }
    requires array { (s : ℕ) → s < 16 → unsigned_abs (value_at array.now s) ≤ 10 ^ 8 }
    requires room { (s : ℕ) → s < 16 → IsTotal (value_at totals.old s +ℤ quantity *ℤ value_at array.now s) }
    ensures { (s : ℕ) → s < 16 →
        value_at totals.new s ≡ value_at totals.old s +ℤ quantity *ℤ value_at array.now s }
{
    for s in 0..16 {
        totals[s] = total_at(totals, s).plus_scaled(quantity, &array[s]);
    }
}

/// The place of the active scenario, 0 to 15: the lowest-numbered one with the largest total.
pub fn active_scenario(totals: &[Total; 16]) -> usize
    ensures active { result ≡ active (value_at totals.now) }
    ensures scenario { result < 16 }
{
    let mut best = 0;
    let mut most = total_at(totals, 0);
    for s in 1..16 {
        let total = total_at(totals, s);
        if total.is_above(most) {
            best = s;
            most = total;
        }
    }
    best
}

/// The total of a scenario in cents, or 0 where it is below 0. That of the active one is the scan risk.
pub fn risk_at(totals: &[Total; 16], scenario: usize) -> Cents
    requires { scenario < 16 }
    ensures value { result ≡ int_max (pos 0) (value_at totals.now scenario) }
    ensures small { unsigned_abs result ≤ 256 * 10 ^ 15 }
{
    total_at(totals, scenario).cents().or_zero()
}

/// The scan risk in cents: the largest total, or 0 where none is above it.
pub fn largest_total(totals: &[Total; 16]) -> Cents
    ensures scan { result ≡ scan_risk (value_at totals.now) }
    ensures small { unsigned_abs result ≤ 256 * 10 ^ 15 }
{
    risk_at(totals, active_scenario(totals))
}

// The other scenario of the same price move.
fn pair_of_scenario(scenario: usize) -> usize
    requires { scenario < 16 }
    ensures pair { result ≡ pair_of scenario }
    ensures scenario { result < 16 }
{
    if scenario < 14 {
        if scenario % 2 == 0 {
            scenario + 1
        } else {
            scenario - 1
        }
    } else {
        scenario
    }
}

/// Twice the price risk in cents, by the place of the active scenario.
pub fn doubled_risk_at(totals: &[Total; 16], active: usize) -> Cents
    requires { active < 16 }
    ensures value { result ≡ price_risk2_at (value_at totals.now) active }
    ensures not_negative { pos 0 ≤ℤ result }
    ensures small { unsigned_abs result ≤ 11 * 10 ^ 17 }
{
    let own = total_at(totals, active).cents();
    if !own.is_above(Cents::ZERO) {
        return Cents::ZERO;
    }
    let pair = total_at(totals, pair_of_scenario(active)).cents();
    let first = total_at(totals, 0).cents();
    let second = total_at(totals, 1).cents();
    own.plus(pair).minus(first).minus(second).or_zero()
}

/// Twice the price risk in cents.
pub fn doubled_risk(totals: &[Total; 16]) -> Cents
    ensures value { result ≡ price_risk2 (value_at totals.now) }
    ensures not_negative { pos 0 ≤ℤ result }
    ensures small { unsigned_abs result ≤ 11 * 10 ^ 17 }
{
    doubled_risk_at(totals, active_scenario(totals))
}

/// The scan risk and twice the price risk, by one search of the active scenario.
pub fn both_risks(totals: &[Total; 16]) -> ScanRisks
    ensures scan { result.scan ≡ scan_risk (value_at totals.now) }
    ensures small_scan { unsigned_abs result.scan ≤ 256 * 10 ^ 15 }
    ensures price_risk2 { result.price_risk2 ≡ price_risk2 (value_at totals.now) }
    ensures not_negative { pos 0 ≤ℤ result.price_risk2 }
    ensures small { unsigned_abs result.price_risk2 ≤ 11 * 10 ^ 17 }
{
    let active = active_scenario(totals);
    ScanRisks {
        scan: risk_at(totals, active),
        price_risk2: doubled_risk_at(totals, active),
    }
}
