//! Charges and deltas after each of a list of changes, worked out by hand.

ghost use Rattle.std.specs.Prelude.{◌<◌, length};
ghost use Rattle.mgn_tiers.specs.Tiers.{AreTiersOf};

use crate::sets::Worked;
use mgn_num::TenThousandths;
use mgn_params::ParamSet;
use mgn_tiers::TierStages;
use std::alloc::Global;
use std::process::Abort;
use std::test::Fail;

// A month and what its delta changes by; then the charge, the spot month charge and the net delta of its commodity.
type Case = (usize, i64, i128, i128, i128);

// Adds to the delta of a month.
fn change(rt: &impl Abort, tiers: &mut TierStages, set: &ParamSet, month: usize, delta: i64)
    requires of_set { AreTiersOf set.now tiers.old }
    requires month { month < length set.now.months }
    ensures { AreTiersOf set.now tiers.new }
{
    set.limits();
    assert!(rt; -1_000_000 < delta && delta < 1_000_000);
    let delta = TenThousandths::new(i128::from(delta));
    let own = tiers.month_delta(month).plus(delta);
    let net = tiers.net_delta(set.month_at(month).commodity).plus(delta);
    assert!(rt; own.size() < 1_000_000_000);
    assert!(rt; net.size() < 1_000_000_000);
    tiers.add(set, month, delta);
}

// Whether the questions have these answers for a commodity.
fn expect(rt: &impl Abort, tiers: &TierStages, set: &ParamSet, commodity: usize, case: &Case)
    requires of_set { AreTiersOf set.now tiers.now }
    requires commodity { commodity < length set.now.commodities }
{
    assert_eq!(rt; tiers.charge(commodity).amount(), case.2);
    assert_eq!(rt; tiers.spot(commodity).amount(), case.3);
    assert_eq!(rt; tiers.net_delta(commodity).parts(), case.4);
}

// Makes the changes in turn.
fn check_changes(
    rt: &impl Abort,
    alloc: Global,
    set: &ParamSet,
    cases: &[Case],
) -> Result<(), Fail> {
    let mut tiers = TierStages::new(alloc, set)?;
    for case in cases {
        let month = case.0;
        assert!(rt; month < set.month_count());
        change(rt, &mut tiers, set, month, case.1);
        let commodity = set.month_at(month).commodity;
        assert!(rt; commodity < set.commodity_count());
        expect(rt, &tiers, set, commodity, case);
    }
    Ok(())
}

static ONE: [Case; 8] = [
    (0, 20_000, 0, 0, 20_000),
    (1, -20_000, 80, 0, 0),
    (1, 10_000, 40, 0, 10_000),
    (2, -40_000, 0, 0, -40_000),
    (1, -10_000, 80, 0, 0),
    (1, 40_000, 0, 0, 40_000),
    (0, -40_000, 80, 0, 0),
    (0, 20_000, 0, 0, 20_000),
];

// 3,333 at 40 is 13.332, rounded up.
static ODD: [Case; 2] = [(0, 10_000, 0, 0, 10_000), (1, -10_000, 14, 0, 0)];

static FLAT: [Case; 2] = [(0, 20_000, 0, 0, 20_000), (1, -20_000, 80, 0, 0)];

static SPOT: [Case; 3] = [
    (0, 20_000, 0, 100, 20_000),
    (1, -20_000, 80, 60, 0),
    (0, 10_000, 80, 110, 10_000),
];

// 9,999 at 30 is 29.997 and 1 at 50 is 0.005, each rounded up.
static SPODD: [Case; 2] = [(0, 10_000, 0, 50, 10_000), (1, -10_000, 14, 31, 0)];

// The second spread meets what the first one leaves.
static THREE_TIERS: [Case; 5] = [
    (1, -30_000, 0, 0, -30_000),
    (2, 20_000, 140, 0, -10_000),
    (0, 20_000, 150, 0, 10_000),
    (0, 10_000, 120, 0, 20_000),
    (0, -30_000, 140, 0, -10_000),
];

// Both ways of the first spread before the second: 100, then 125 more, then 35. Spot: 70,000 outright at 7; then 40,000
// of them in spreads at 30, and at last 50,000 more.
static TIERS: [Case; 5] = [
    (0, 70_000, 0, 49, 70_000),
    (3, -60_000, 100, 141, 10_000),
    (2, 80_000, 100, 141, 90_000),
    (1, -50_000, 225, 291, 40_000),
    (4, -40_000, 260, 291, 0),
];

fn check(rt: &impl Abort, alloc: Global, worked: Worked, cases: &[Case]) -> Result<(), Fail> {
    let set = worked.read(alloc)?;
    check_changes(rt, alloc, &set, cases)
}

#[test]
fn follow_changes(rt: HostRuntime) -> Result<(), Fail> {
    check(&rt, rt.alloc(), Worked::One, &ONE)?;
    check(&rt, rt.alloc(), Worked::Odd, &ODD)?;
    check(&rt, rt.alloc(), Worked::Flat, &FLAT)?;
    check(&rt, rt.alloc(), Worked::Spot, &SPOT)?;
    check(&rt, rt.alloc(), Worked::Spodd, &SPODD)?;
    check(&rt, rt.alloc(), Worked::ThreeTiers, &THREE_TIERS)?;
    check(&rt, rt.alloc(), Worked::Tiers, &TIERS)
}

// Changes two of the three months, and asks for the deltas of all.
fn check_months(rt: &impl Abort, alloc: Global, set: &ParamSet) -> Result<(), Fail> {
    let mut tiers = TierStages::new(alloc, set)?;
    assert_eq!(rt; set.month_count(), 3);
    change(rt, &mut tiers, set, 1, 20_000);
    change(rt, &mut tiers, set, 2, -5_000);
    change(rt, &mut tiers, set, 1, -90_000);
    assert_eq!(rt; tiers.month_delta(0).parts(), 0);
    assert_eq!(rt; tiers.month_delta(1).parts(), -70_000);
    assert_eq!(rt; tiers.month_delta(2).parts(), -5_000);
    Ok(())
}

#[test]
fn deltas_of_months(rt: HostRuntime) -> Result<(), Fail> {
    let set = Worked::One.read(rt.alloc())?;
    check_months(&rt, rt.alloc(), &set)
}
