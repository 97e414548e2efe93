//! Desks that are given with a command.

ghost use Rattle.std.specs.Prelude.{◌≡◌, ◌<◌, ◌==◌, ◌↔◌, IfSome, IsTrue, is_some, length, map, All};
ghost use Rattle.std.specs.Option.{option_map_or};
ghost use Rattle.std.specs.List.{list_any, position};
ghost use Rattle.mgn_plan.specs.Plans.{CanChange, Foresees, IsPossible, KnowsAll, moved_nets, row_at};
ghost use Rattle.mgn_span.specs.Scan.{value_at};
ghost use Rattle.mgn_num.specs.Amount.{IsQuantity};
ghost use Rattle.mgn_unit.specs.Rows.{IsChange, IsRoomy, IsRow, Prices, more_at, nets_in};
ghost use Rattle.std.specs.Prelude.{◌+ℤ◌};
ghost use Rattle.mgn_desk.specs.Desks.{IsMarkedBy, nets_at};
ghost use Rattle.mgn_params.specs.Tables.{Tables};
ghost use Rattle.mgn_pricing.specs.Given.{IsRight, fit_plan, fits, fits_change, has_nets, is_older, is_one_older};

use crate::desks::is_of;
use mgn_desk::Desk;
use mgn_nets::{Nets, Portfolios};
use mgn_num::Quantity;
use mgn_params::{ParamSet, Version};
use mgn_plan::{Known, Plan, UnitChange};
use mgn_unit::{Change, Priced, Row};

// Whether a desk is marked under a version before this one.
fn is_older(desk: &Desk, version: Version) -> bool
    ensures { result ≡ is_older version desk.now.marked }
{
    match desk.version() {
        Some(own) => own.number() < version.number(),
        None => false,
    }
}

// Whether one of them is.
fn any_older(desks: &[&Desk], version: Version) -> bool
    ensures { result ≡ list_any (λ d. is_older version d.now.marked) desks.now }
{
    desks.iter().any(|desk| is_older(desk, version))
}

/// Whether one of some desks is marked under a version before this one.
pub fn is_one_older(desks: &[&Desk], version: Version) -> bool
    ensures { result ≡ is_one_older version (map (λ d. d.now) desks.now) }
{
    any_older(desks, version)
}

// Where the desk of a unit stands among some.
fn place_of(desks: &[&Desk], unit: usize) -> Option<usize>
    ensures place { result ≡ position (λ d. d.now.unit == unit) desks.now }
    ensures within { IfSome result (λ i. i < length desks.now) }
{
    desks.iter().position(|desk| desk.unit() == unit)
}

// A net of a row with a quantity more of one contract.
fn moved_net(row: &Nets, i: usize, contract: usize, quantity: Quantity) -> Quantity
    requires inside { i < length row.now }
    requires small { IsQuantity (value_at row.now contract +ℤ quantity) }
    ensures { result ≡ value_at (more_at row.now contract quantity) i }
{
    let net = row.at(i);
    if i == contract {
        net.plus(quantity)
    } else {
        net
    }
}

// Whether the nets of a contract are those of a row after a change.
fn are_moved(nets: &Portfolios<Quantity>, row: &Row, i: usize, change: &Change) -> bool
    requires { (set : Tables) × IsRow set row.now × IsChange set change.now × (i < length set.contracts) }
    ensures { IsTrue result ↔ (nets.now ≡ nets_at (moved_nets change.now (nets_in row.now)) i) }
{
    let contract = change.contract;
    nets.lots == moved_net(&row.lots.nets, i, contract, change.lots.quantity)
        && nets.buys == moved_net(&row.buys.nets, i, contract, change.buys.quantity)
        && nets.sales == moved_net(&row.sales.nets, i, contract, change.sales.quantity)
        && nets.all == moved_net(&row.all.nets, i, contract, change.all.quantity)
}

// Whether a marked desk has the nets of a row after a change.
fn has_moved(desk: &Desk, set: &ParamSet, row: &Row, change: &Change) -> bool
    requires marked { IsMarkedBy set.now desk.now.marked }
    requires row { IsRow set.now row.now }
    requires change { IsChange set.now change.now }
    ensures { result ≡ has_nets (moved_nets change.now (nets_in row.now)) desk.now.marked }
{
    for i in 0..desk.contract_count() {
        if !are_moved(&desk.nets_at(i), row, i, change) {
            return false;
        }
    }
    true
}

// Whether a desk is marked under a version with the nets of a row after a change.
fn fits(desk: &Desk, version: Version, set: &ParamSet, row: &Row, change: &Change) -> bool
    requires row { IsRow set.now row.now }
    requires change { IsChange set.now change.now }
    requires roomy { IsRoomy change.now row.now }
    requires right { IsRight set.now version desk.now.marked }
    ensures { result ≡ fits version (moved_nets change.now (nets_in row.now)) desk.now.marked }
{
    is_of(desk, version) && has_moved(desk, set, row, change)
}

// What a unit requires after a change of its row, by its desk; none where no desk fits.
fn priced_by(
    desks: &[&Desk],
    version: Version,
    set: &ParamSet,
    rows: &[Row],
    change: &UnitChange,
) -> Option<Priced>
    requires possible { CanChange set.now rows.now change.now }
    requires right { All (λ d. IsRight set.now version d.now.marked) desks.now }
    ensures priced { IfSome result (Prices set.now change.now.change (row_at set.now rows.now change.now.unit)) }
    ensures fit { is_some result ≡ fits_change set.now version rows.now (map (λ d. d.now) desks.now) change.now }
{
    let desk = desks[place_of(desks, change.unit)?];
    if !fits(desk, version, set, &rows[change.unit], &change.change) {
        return None;
    }
    Some(desk.requirements())
}

/// What the units of a plan require once it is done, by desks that the plan has moved; none where a unit has no desk
/// among these that is marked under the version with the nets of its row after the plan. It takes no memory. The cost
/// grows with the number of contracts, as nets are compared.
pub fn known_by(
    desks: &[&Desk],
    version: Version,
    set: &ParamSet,
    rows: &[Row],
    plan: &Plan,
) -> Option<Known>
    requires possible { IsPossible set.now rows.now plan.now }
    requires right { All (λ d. IsRight set.now version d.now.marked) desks.now }
    ensures known { IfSome result (Foresees set.now rows.now plan.now) }
    ensures whole { IfSome result (KnowsAll plan.now) }
    ensures fit { is_some result ≡ fit_plan set.now version rows.now (map (λ d. d.now) desks.now) plan.now }
{
    match plan {
        Plan::Nothing => Some(Known::NOTHING),
        Plan::One(change) => {
            let first = priced_by(desks, version, set, rows, change)?;
            Some(Known {
                first: Some(first),
                second: None,
            })
        }
        Plan::Two(giver, taker) => {
            let first = priced_by(desks, version, set, rows, giver)?;
            let second = priced_by(desks, version, set, rows, taker)?;
            Some(Known {
                first: Some(first),
                second: Some(second),
            })
        }
    }
}
