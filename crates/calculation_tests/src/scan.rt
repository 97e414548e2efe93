//! Figures after each of a list of changes, worked out by hand.

ghost use Rattle.std.specs.Prelude.{◌≡◌, ◌*◌, ◌<◌, ◌≤◌, ◌^◌, length, unsigned_abs};
ghost use Rattle.mgn_scan.specs.Totals.{AreTotals};

use crate::sets::Worked;
use mgn_nets::Nets;
use mgn_num::Quantity;
use mgn_params::{ParamSet, Work};
use mgn_scan::ScanTotals;
use std::alloc::Global;
use std::process::Abort;
use std::test::Fail;

// Scan risk, place of the active scenario and doubled price risk.
type Scanned = (i128, usize, i128);

const FLAT: Scanned = (0, 0, 0);

// A contract, what its net changes by, and the figures of AAA and BBB after that.
type Change = (usize, i64, Scanned, Scanned);

// A quantity that takes a net from one of its limits to the other, at most.
fn some_quantity(rt: &impl Abort, contracts: i64) -> Quantity
    ensures value { result ≡ contracts }
    ensures small { unsigned_abs result ≤ 2 * 10 ^ 7 }
{
    assert!(rt; -20_000_000 <= contracts && contracts <= 20_000_000);
    Quantity::new(contracts)
}

// Makes a change, which leaves the net within its limit.
fn follow(
    rt: &impl Abort,
    set: &ParamSet,
    nets: &mut Nets,
    totals: &mut ScanTotals,
    change: &Change,
    work: &mut Work,
)
    requires { AreTotals set.now nets.old totals.old }
    ensures { AreTotals set.now nets.new totals.new }
{
    let quantity = some_quantity(rt, change.1);
    assert!(rt; change.0 < set.contract_count());
    let net = nets.at(change.0).plus(quantity);
    assert!(rt; net.size() <= 10_000_000);
    totals.add(set, nets, change.0, quantity, work);
    nets.add(change.0, quantity);
}

fn figures_of(totals: &ScanTotals, commodity: usize) -> Scanned
    requires { commodity < length totals.now }
{
    (
        totals.scan(commodity).amount(),
        totals.active(commodity),
        totals.price_risk2(commodity).amount(),
    )
}

// Whether each change leaves the figures beside it, and reads one array.
fn check_under(
    rt: &impl Abort,
    alloc: Global,
    set: &ParamSet,
    changes: &[Change],
) -> Result<(), Fail> {
    assert_eq!(rt; set.commodity_count(), 2);
    let mut totals = ScanTotals::new(alloc, set)?;
    set.limits();
    let mut nets = Nets::flat(alloc, set.contract_count())?;
    let mut work = Work::new();
    for change in changes {
        follow(rt, set, &mut nets, &mut totals, change, &mut work);
        assert_eq!(rt;
            [figures_of(&totals, 0), figures_of(&totals, 1)],
            [change.2, change.3]
        );
    }
    assert_eq!(rt; work.arrays(), changes.len() as u64);
    Ok(())
}

static TRADES: [Change; 11] = [
    (0, 2, (600, 12, 1_200), FLAT),
    (1, -2, (60, 12, 120), FLAT),
    (1, 2, (600, 12, 1_200), FLAT),
    (0, -1, (300, 12, 600), FLAT),
    (3, -2, (300, 12, 600), (300, 10, 600)),
    (0, -1, FLAT, (300, 10, 600)),
    (2, -1, (220, 10, 427), (300, 10, 600)),
    (2, 2, (60, 13, 115), (300, 10, 600)),
    (3, 4, (60, 13, 115), (300, 12, 600)),
    (3, -2, (60, 13, 115), FLAT),
    (2, -1, FLAT, FLAT),
];

static LIMITS: [Change; 3] = [
    (0, 10_000_000, (3_000_000_000, 12, 6_000_000_000), FLAT),
    (0, -20_000_000, (3_000_000_000, 10, 6_000_000_000), FLAT),
    (0, 10_000_000, FLAT, FLAT),
];

// A scan of 0 has no price risk, and a tie goes to the lowest scenario.
static GAINS: [Change; 3] = [
    (0, 1, FLAT, FLAT),
    (0, -2, (5, 0, 0), FLAT),
    (3, 7, (5, 0, 0), (1_050, 12, 2_100)),
];

// The largest losses of both futures stand in the extreme scenarios, each its own pair.
static EXTREMES: [Change; 4] = [
    (0, 1, (500, 15, 1_010), FLAT),
    (0, -2, (450, 14, 890), FLAT),
    (1, -2, (450, 14, 890), (300, 10, 600)),
    (0, 3, (1_000, 15, 2_020), (300, 10, 600)),
];

fn check(rt: &impl Abort, alloc: Global, worked: Worked, changes: &[Change]) -> Result<(), Fail> {
    let set = worked.read(alloc)?;
    check_under(rt, alloc, &set, changes)
}

#[test]
fn follow_changes(rt: HostRuntime) -> Result<(), Fail> {
    check(&rt, rt.alloc(), Worked::One, &TRADES)?;
    check(&rt, rt.alloc(), Worked::One, &LIMITS)?;
    check(&rt, rt.alloc(), Worked::Win, &GAINS)?;
    check(&rt, rt.alloc(), Worked::Extreme, &EXTREMES)
}
