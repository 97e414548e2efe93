//! All figures of nets, worked out by hand.

mod cases;

ghost use Rattle.std.specs.Prelude.{◌≡◌, ◌≤◌, ◌<◌, ◌^◌, length, All, IfOk};
ghost use Rattle.mgn_span.specs.Positions.{IsNet};

use crate::sets::{Worked, flat_nets};
use cases::cases;
use mgn_nets::Nets;
use mgn_num::Quantity;
use mgn_params::{ParamSet, Work};
use mgn_plain::{CommodityFigures, Figures, figures, requirement};
use std::alloc::{AllocError, Global};
use std::process::Abort;
use std::test::Fail;

// Scan risk, place of the active scenario, doubled price risk, intracommodity and spot month charge, credit, short
// option minimum and risk of a commodity.
type Row = [i128; 8];

// Nets under a set, and what comes of them: a row for each commodity in file order, and the sums.
#[derive(Clone, Copy)]
struct Case {
    set: Worked,
    nets: &'static [i64],
    commodities: &'static [Row],
    option_value: i128,
    requirement: i128,
}

// A net, which is within its limit.
fn some_net(rt: &impl Abort, contracts: i64) -> Quantity
    ensures { IsNet result }
{
    assert!(rt; -10_000_000 <= contracts && contracts <= 10_000_000);
    Quantity::new(contracts)
}

// Nets of so many contracts each.
fn nets_of(
    rt: &impl Abort,
    alloc: Global,
    set: &ParamSet,
    contracts: &[i64],
) -> Result<Nets, AllocError>
    ensures one_each { IfOk result (λ nets. length nets ≡ length set.now.contracts) }
    ensures small { IfOk result (All IsNet) }
{
    set.limits();
    assert_eq!(rt; contracts.len(), set.contract_count());
    let mut nets = flat_nets(alloc, set)?;
    for i in 0..contracts.len() {
        nets[i] = some_net(rt, contracts[i]);
    }
    Nets::of(alloc, &nets)
}

fn row_of(commodity: &CommodityFigures) -> Row {
    [
        commodity.scan.amount(),
        commodity.active as i128,
        commodity.price_risk2.amount(),
        commodity.intra.amount(),
        commodity.spot.amount(),
        commodity.credit.amount(),
        commodity.minimum.amount(),
        commodity.risk.amount(),
    ]
}

// Whether all figures are what they should be.
fn check_figures(rt: &impl Abort, found: &Figures, want: &Case) {
    let commodities = found.commodities();
    assert_eq!(rt; commodities.len(), want.commodities.len());
    for g in 0..commodities.len() {
        assert_eq!(rt; row_of(&commodities[g]), want.commodities[g], "at {g}");
    }
    assert_eq!(rt; found.option_value().amount(), want.option_value);
    assert_eq!(rt; found.requirement().amount(), want.requirement);
}

// Works out the figures of nets, and the requirement alone. Each array of a net other than 0 is read once.
fn check_nets(
    rt: &impl Abort,
    alloc: Global,
    set: &ParamSet,
    nets: &Nets,
    case: &Case,
) -> Result<(), Fail>
    requires one_each { length nets.now ≡ length set.now.contracts }
    requires nets { All IsNet nets.now }
{
    let traded = case.nets.iter().filter(|net| **net != 0).count();
    let mut work = Work::new();
    let found = figures(alloc, set, nets, &mut work)?;
    check_figures(rt, &found, case);
    assert_eq!(rt; work.arrays(), traded as u64);
    let alone = requirement(alloc, set, nets, &mut work)?;
    assert_eq!(rt; alone.amount(), case.requirement);
    Ok(())
}

fn check_case(rt: &impl Abort, alloc: Global, set: &ParamSet, case: &Case) -> Result<(), Fail> {
    let nets = nets_of(rt, alloc, set, case.nets)?;
    check_nets(rt, alloc, set, &nets, case)
}

#[test]
fn are_those_worked_out_by_hand(rt: HostRuntime) -> Result<(), Fail> {
    for case in cases() {
        let set = case.set.read(rt.alloc())?;
        check_case(&rt, rt.alloc(), &set, case)?;
    }
    Ok(())
}
