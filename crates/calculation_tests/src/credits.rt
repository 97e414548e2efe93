//! Credits after each of a list of changes, worked out by hand.

ghost use Rattle.std.specs.Prelude.{◌<◌, length};
ghost use Rattle.mgn_inter.specs.Credited.{AreCreditsOf};

use crate::sets::Worked;
use mgn_inter::InterCredits;
use mgn_num::{Cents, TenThousandths};
use mgn_params::ParamSet;
use std::alloc::Global;
use std::process::Abort;
use std::test::Fail;

// A commodity with its new net delta and doubled price risk; then the credits of the first three commodities.
type Case = (usize, i64, i64, [i128; 3]);

// Gives a commodity its numbers.
fn change(rt: &impl Abort, credits: &mut InterCredits, set: &ParamSet, case: &Case)
    requires { AreCreditsOf set.now credits.old }
    ensures { AreCreditsOf set.now credits.new }
{
    let (commodity, delta, risk, _) = *case;
    assert!(rt; commodity < set.commodity_count());
    assert!(rt; -1_000_000 < delta && delta < 1_000_000);
    assert!(rt; 0 <= risk && risk < 1_000_000);
    let delta = TenThousandths::new(i128::from(delta));
    credits.refresh(set, commodity, delta, Cents::new(i128::from(risk)));
}

// Makes the changes in turn.
fn check_changes(
    rt: &impl Abort,
    alloc: Global,
    set: &ParamSet,
    cases: &[Case],
) -> Result<(), Fail> {
    let count = set.commodity_count();
    assert!(rt; count <= 3);
    let mut credits = InterCredits::new(alloc, set)?;
    for case in cases {
        change(rt, &mut credits, set, case);
        for g in 0..count {
            assert_eq!(rt; credits.credit(g).amount(), case.3[g]);
        }
    }
    Ok(())
}

static TURNED: [Case; 5] = [
    (0, 10_000, 600, [0, 0, 0]),
    (1, -20_000, 600, [150, 150, 0]),
    (0, -10_000, 600, [0, 0, 0]),
    (1, 20_000, 600, [150, 150, 0]),
    (0, 0, 600, [0, 0, 0]),
];

// Half of a net delta is used.
static IN_PART: [Case; 3] = [
    (1, -40_000, 1_200, [0, 0, 0]),
    (0, 10_000, 660, [165, 150, 0]),
    (0, 0, 600, [0, 0, 0]),
];

static NO_RISK: [Case; 2] = [(0, 10_000, 0, [0, 0, 0]), (1, -20_000, 600, [0, 150, 0])];

// The price risk alone changes, at the whole rate.
static WHOLE: [Case; 3] = [
    (0, 10_000, 1_000, [0, 0, 0]),
    (1, -20_000, 600, [500, 300, 0]),
    (0, 10_000, 0, [0, 300, 0]),
];

// The second spread meets what the first one leaves.
static THREE: [Case; 6] = [
    (1, -30_000, 900, [0, 0, 0]),
    (2, 20_000, 400, [0, 300, 200]),
    (0, 10_000, 600, [150, 375, 200]),
    (0, 30_000, 1_800, [450, 225, 0]),
    (2, 30_000, 600, [450, 225, 0]),
    (0, -10_000, 600, [0, 450, 300]),
];

// 3,333 use 9,999 and 3,333 of 10,000: 150.2 and 50.07, each rounded down.
static ODD: [Case; 2] = [(0, 10_000, 601, [0, 0, 0]), (1, -10_000, 601, [150, 50, 0])];

fn check(rt: &impl Abort, alloc: Global, worked: Worked, cases: &[Case]) -> Result<(), Fail> {
    let set = worked.read(alloc)?;
    check_changes(rt, alloc, &set, cases)
}

#[test]
fn follow_changes(rt: HostRuntime) -> Result<(), Fail> {
    check(&rt, rt.alloc(), Worked::One, &TURNED)?;
    check(&rt, rt.alloc(), Worked::One, &IN_PART)?;
    check(&rt, rt.alloc(), Worked::One, &NO_RISK)?;
    check(&rt, rt.alloc(), Worked::Neg, &WHOLE)?;
    check(&rt, rt.alloc(), Worked::ThreeCommodities, &THREE)?;
    check(&rt, rt.alloc(), Worked::OddLegs, &ODD)
}
