ghost use Rattle.std.specs.Prelude.{◌≡◌, ℕ, ◌+◌, ◌*◌, ◌<◌, ◌≤◌, ◌^◌, pos, ◌+ℤ◌, ◌*ℤ◌, unsigned_abs, length, replicate, slice_index, false};
ghost use Rattle.mgn_params.specs.Tables.{contract_at};
ghost use Rattle.mgn_span.specs.Positions.{IsNet};
ghost use Rattle.mgn_span.specs.Scan.{price_risk2, value_at};
ghost use Rattle.mgn_span.specs.Sizes.{IsTotal};
ghost use Rattle.mgn_span.specs.Words.{scenario_share, total_of, totals_of};
ghost use Rattle.mgn_plain.specs.Kept.{mark_at};
ghost use Rattle.mgn_plain.specs.Scans.{scanned};

use crate::rows::mark_at;
use crate::scanned::ScanFigures;
use mgn_num::Quantity;
use mgn_params::{ParamSet, Work};
use mgn_rows::SparseRows;
use mgn_span::Total;
use mgn_span::scan::{active_scenario, add_scaled, doubled_risk, doubled_risk_at, risk_at};

// Adds what a position in the contract at `i` counts for.
pub(crate) fn add_position(
    totals: &mut SparseRows<[Total; 16]>,
    set: &ParamSet,
    i: usize,
    net: Quantity,
    work: &mut Work,
)
    requires contract { i < length set.now.contracts }
    requires net { IsNet net }
    requires one_each { length totals.old ≡ length set.now.commodities }
    requires room { (s : ℕ) → s < 16 →
        IsTotal (total_of totals.old (contract_at set.now.contracts i).commodity s +ℤ net *ℤ value_at (contract_at set.now.contracts i).array s) }
    ensures one_each { length totals.new ≡ length totals.old }
    ensures totals { (g s : ℕ) → g < length totals.old → s < 16 →
        total_of totals.new g s ≡ total_of totals.old g s +ℤ scenario_share g s (contract_at set.now.contracts i, net) }
{
    set.limits();
    let row = totals.row_mut(set.contract_at(i).commodity);
    add_scaled(row, set.array(i, work), net);
}

// The scan figures of the totals of a commodity.
pub(crate) fn scan_figures(totals: &[Total; 16]) -> ScanFigures
    ensures figures { result ≡ scanned (value_at totals.now) }
    ensures small_scan { unsigned_abs result.scan ≤ 256 * 10 ^ 15 }
{
    let active = active_scenario(totals);
    ScanFigures {
        scan: risk_at(totals, active),
        active,
        price_risk2: doubled_risk_at(totals, active),
    }
}

// The totals of a commodity.
pub(crate) fn totals_row(totals: &SparseRows<[Total; 16]>, commodity: usize) -> &[Total; 16]
    requires { commodity < length totals.now }
    ensures { result.now ≡ totals_of totals.now commodity }
{
    totals.row(commodity)
}

// Twice the price risk of each commodity, of which those without a mark have totals of 0.
pub(crate) fn fill_price_risks(risks: &mut [u64], totals: &SparseRows<[Total; 16]>, marks: &[bool])
    requires zeros { risks.old ≡ replicate (length totals.now) 0 }
    requires one_each { length marks.now ≡ length totals.now }
    requires flat { (g s : ℕ) → mark_at marks.now g ≡ false → g < length totals.now → s < 16 → total_of totals.now g s ≡ pos 0 }
    ensures one_each { length risks.new ≡ length totals.now }
    ensures risks { (g : ℕ) → g < length totals.now → slice_index risks.new g ≡ unsigned_abs (price_risk2 (total_of totals.now g)) }
{
    for g in 0..totals.len() {
        if mark_at(marks, g) {
            risks[g] = doubled_risk(totals_row(totals, g)).size() as u64;
        }
    }
}
