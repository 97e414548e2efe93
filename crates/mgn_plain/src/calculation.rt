ghost use Rattle.std.specs.Prelude.{◌≡◌, ℕ, ◌*◌, ◌<◌, ◌≤◌, ◌^◌, ℤ, pos, ◌+ℤ◌, ◌-ℤ◌, ◌≤ℤ◌, List, unsigned_abs, length, slice_index, map, All, IfOk};
ghost use Rattle.std.specs.Int.{int_max};
ghost use Rattle.mgn_num.specs.Signed.{signed_sum_below};
ghost use Rattle.mgn_span.specs.Positions.{IsNet, positions};
ghost use Rattle.mgn_span.specs.Requirement.{requirement, risk};
ghost use Rattle.mgn_span.specs.Words.{commodities_of};
ghost use Rattle.mgn_plain.specs.Figures.{commodity_figures, figures_of};
ghost use Rattle.mgn_plain.specs.Kept.{legs_row};
ghost use Rattle.mgn_plain.specs.Parts.{AreFigureRows, AreNets};

use crate::charges::charges_by;
use crate::commodity::CommodityFigures;
use crate::deltas::month_sums;
use crate::figure_rows::FigureRows;
use crate::parts::work_out_credits;
use crate::rows::mark_at;
use crate::scan::{scan_figures, totals_row};
use crate::sums::sums_of;
use crate::whole::Figures;
use mgn_nets::Nets;
use mgn_num::Cents;
use mgn_params::{ParamSet, Work};
use mgn_rows::SparseRows;
use std::alloc::{AllocError, Global};

// One pass over the contracts, then those over the months, the spreads and the commodities.
pub(crate) fn work_out(
    alloc: Global,
    set: &ParamSet,
    nets: &Nets,
    work: &mut Work,
) -> Result<FigureRows, AllocError>
    requires { AreNets set.now nets.now }
    ensures { IfOk result (λ rows. AreFigureRows set.now nets.now rows) }
{
    let sums = sums_of(alloc, set, nets, work)?;
    let months = month_sums(alloc, set, &sums.deltas)?;
    let credits = work_out_credits(alloc, set, &months.nets, &sums)?;
    Ok(FigureRows {
        sums,
        starts: months.starts,
        credits,
    })
}

// What the legs of a commodity start with.
fn starts_row(starts: &SparseRows<[u64; 16]>, commodity: usize) -> &[u64; 16]
    requires { commodity < length starts.now }
    ensures { result.now ≡ legs_row starts.now commodity }
{
    starts.row(commodity)
}

// A number of a row of cents.
fn cents_at(row: &[u128], commodity: usize) -> Cents
    requires commodity { commodity < length row.now }
    requires small { slice_index row.now commodity ≤ 10 ^ 36 }
    ensures { result ≡ pos (slice_index row.now commodity) }
{
    Cents::new(row[commodity] as i128)
}

// Scan risk and charges less the credit, and at least the minimum.
fn risk_of(scan: Cents, intra: Cents, spot: Cents, credit: Cents, minimum: Cents) -> Cents
    requires scan { unsigned_abs scan ≤ 256 * 10 ^ 15 }
    requires intra { unsigned_abs intra ≤ 2 * 10 ^ 27 }
    requires spot { unsigned_abs spot ≤ 10 ^ 26 }
    requires credit { unsigned_abs credit ≤ 256 * 10 ^ 33 }
    requires a_credit { pos 0 ≤ℤ credit }
    requires minimum { unsigned_abs minimum ≤ 10 ^ 20 }
    requires a_minimum { pos 0 ≤ℤ minimum }
    ensures risk { result ≡ int_max (scan +ℤ intra +ℤ spot -ℤ credit) minimum }
    ensures small { unsigned_abs result ≤ 3 * 10 ^ 27 }
{
    let spread = scan.plus(intra).plus(spot).minus(credit);
    spread.larger(minimum)
}

// The figures of a commodity.
pub(crate) fn figures_of(set: &ParamSet, rows: &FigureRows, commodity: usize) -> CommodityFigures
    requires rows { (nets : List ℤ) × AreFigureRows set.now nets rows.now }
    requires commodity { commodity < length set.now.commodities }
    ensures figures { (nets : List ℤ) →
        AreFigureRows set.now nets rows.now →
        result ≡ commodity_figures set.now (positions set.now.contracts nets) commodity }
    ensures small { unsigned_abs result.risk ≤ 3 * 10 ^ 27 }
{
    set.limits();
    let scan = scan_figures(totals_row(&rows.sums.totals, commodity));
    let charges = charges_by(set, starts_row(&rows.starts, commodity), commodity);
    let credit = cents_at(&rows.credits, commodity);
    let minimum = cents_at(&rows.sums.minimums, commodity);
    CommodityFigures {
        scan: scan.scan,
        active: scan.active,
        price_risk2: scan.price_risk2,
        intra: charges.intra,
        spot: charges.spot,
        credit,
        minimum,
        risk: risk_of(scan.scan, charges.intra, charges.spot, credit, minimum),
    }
}

#[tactic(auto, using(crate::proofs::PartLemmas::risk_is))]
// The risk of a commodity. Where each of its nets is 0 it risks nothing, and nothing is worked out.
fn risk_at(set: &ParamSet, rows: &FigureRows, commodity: usize) -> Cents
    requires rows { (nets : List ℤ) × AreFigureRows set.now nets rows.now }
    requires commodity { commodity < length set.now.commodities }
    ensures risk { (nets : List ℤ) →
        AreFigureRows set.now nets rows.now →
        result ≡ risk set.now (positions set.now.contracts nets) commodity }
    ensures small { unsigned_abs result ≤ 3 * 10 ^ 27 }
{
    set.limits();
    if !mark_at(&rows.sums.marks, commodity) {
        return Cents::ZERO;
    }
    figures_of(set, rows, commodity).risk
}

#[tactic(auto, using(mgn_num::proofs::SignedLemmas::signed_sum_below_more))]
// The sum of the commodities' risks.
fn sum_of_risks(set: &ParamSet, rows: &FigureRows) -> Cents
    requires { (nets : List ℤ) × AreFigureRows set.now nets rows.now }
    ensures sum { (nets : List ℤ) →
        AreFigureRows set.now nets rows.now →
        result ≡ signed_sum_below (risk set.now (positions set.now.contracts nets)) (length set.now.commodities) }
    ensures small { unsigned_abs result ≤ 768 * 10 ^ 27 }
{
    let mut total = Cents::ZERO;
    for g in 0..set.commodity_count() {
        total = total.plus(risk_at(set, rows, g));
    }
    total
}

#[tactic(auto, unfolding(mgn_span::specs::Requirement::requirement))]
// The sum of the risks less the net option value, or 0 where that is negative.
fn requirement_of(set: &ParamSet, rows: &FigureRows) -> Cents
    requires { (nets : List ℤ) × AreFigureRows set.now nets rows.now }
    ensures requirement { (nets : List ℤ) → AreFigureRows set.now nets rows.now → result ≡ requirement set.now nets }
    ensures small { unsigned_abs result ≤ 10 ^ 30 }
{
    let risks = sum_of_risks(set, rows);
    risks.minus(rows.sums.option_value).or_zero()
}

/// What the nets require under the set, in whole cents, computed from scratch: one net for each contract of the set in file
/// order, each at most 10,000,000 in size.
///
/// It is 0 to 10^30. An error says that memory was refused, and nothing else fails. `work` counts the risk arrays that
/// the calculation reads.
pub fn requirement(
    alloc: Global,
    set: &ParamSet,
    nets: &Nets,
    work: &mut Work,
) -> Result<Cents, AllocError>
    requires one_each { length nets.now ≡ length set.now.contracts }
    requires nets { All IsNet nets.now }
    ensures ok { IfOk result (λ r. r ≡ requirement set.now nets.now) }
    ensures small { IfOk result (λ r. unsigned_abs r ≤ 10 ^ 30) }
{
    let rows = work_out(alloc, set, nets, work)?;
    Ok(requirement_of(set, &rows))
}

// The figures of the commodities, in file order.
fn list_figures(
    alloc: Global,
    set: &ParamSet,
    rows: &FigureRows,
) -> Result<Vec<CommodityFigures>, AllocError>
    requires { (nets : List ℤ) × AreFigureRows set.now nets rows.now }
    ensures { IfOk result (λ list. (nets : List ℤ) →
        AreFigureRows set.now nets rows.now →
        list.items ≡ map (commodity_figures set.now (positions set.now.contracts nets)) (commodities_of set.now)) }
{
    let count = set.commodity_count();
    let mut list = Vec::with_capacity(alloc, count)?;
    for g in 0..count {
        list.push_reserved(figures_of(set, rows, g));
    }
    Ok(list)
}

// All figures by the rows.
#[tactic(auto, unfolding(crate::specs::Figures::figures_of))]
fn figures_by(alloc: Global, set: &ParamSet, rows: &FigureRows) -> Result<Figures, AllocError>
    requires { (nets : List ℤ) × AreFigureRows set.now nets rows.now }
    ensures ok { IfOk result (λ f. (nets : List ℤ) → AreFigureRows set.now nets rows.now → f ≡ figures_of set.now nets) }
    ensures small { IfOk result (λ f. unsigned_abs f.requirement ≤ 10 ^ 30) }
{
    let commodities = list_figures(alloc, set, rows)?;
    let requirement = requirement_of(set, rows);
    Ok(Figures::new(commodities, rows.sums.option_value, requirement))
}

/// All figures of the nets under the set, computed from scratch: one net for each contract of the set in file order, each at
/// most 10,000,000 in size.
///
/// An error says that memory was refused, and nothing else fails. `work` counts the risk arrays that the calculation
/// reads.
pub fn figures(
    alloc: Global,
    set: &ParamSet,
    nets: &Nets,
    work: &mut Work,
) -> Result<Figures, AllocError>
    requires one_each { length nets.now ≡ length set.now.contracts }
    requires nets { All IsNet nets.now }
    ensures ok { IfOk result (λ f. f ≡ figures_of set.now nets.now) }
    ensures small { IfOk result (λ f. unsigned_abs f.requirement ≤ 10 ^ 30) }
{
    let rows = work_out(alloc, set, nets, work)?;
    figures_by(alloc, set, &rows)
}
