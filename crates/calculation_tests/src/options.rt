//! Sums after each of a list of changes, worked out by hand.

ghost use Rattle.std.specs.Prelude.{◌≡◌, ◌*◌, ◌<◌, ◌≤◌, ◌^◌, length, unsigned_abs};
ghost use Rattle.mgn_option.specs.Sums.{AreSums};

use crate::sets::Worked;
use mgn_nets::Nets;
use mgn_num::Quantity;
use mgn_option::OptionSums;
use mgn_params::ParamSet;
use std::alloc::Global;
use std::process::Abort;
use std::test::Fail;

// A contract, what its net changes by, and the minimums of AAA and BBB and the net option value after that.
type Change = (usize, i64, [i128; 3]);

// A quantity that takes a net from one of its limits to the other, at most.
fn some_quantity(rt: &impl Abort, contracts: i64) -> Quantity
    ensures value { result ≡ contracts }
    ensures small { unsigned_abs result ≤ 2 * 10 ^ 7 }
{
    assert!(rt; -20_000_000 <= contracts && contracts <= 20_000_000);
    Quantity::new(contracts)
}

// Makes a change, which leaves the net within its limit.
fn follow(rt: &impl Abort, set: &ParamSet, nets: &mut Nets, sums: &mut OptionSums, change: &Change)
    requires { AreSums set.now nets.old sums.old }
    ensures { AreSums set.now nets.new sums.new }
{
    let quantity = some_quantity(rt, change.1);
    assert!(rt; change.0 < set.contract_count());
    let net = nets.at(change.0).plus(quantity);
    assert!(rt; net.size() <= 10_000_000);
    sums.add(set, nets, change.0, quantity);
    nets.add(change.0, quantity);
}

fn amounts_of(sums: &OptionSums) -> [i128; 3]
    requires { length sums.now.minimums ≡ 2 }
{
    [
        sums.minimum(0).amount(),
        sums.minimum(1).amount(),
        sums.value().amount(),
    ]
}

// Whether each change leaves the amounts beside it.
fn check_under(
    rt: &impl Abort,
    alloc: Global,
    set: &ParamSet,
    changes: &[Change],
) -> Result<(), Fail> {
    assert_eq!(rt; set.commodity_count(), 2);
    let mut sums = OptionSums::new(alloc, set)?;
    set.limits();
    let mut nets = Nets::flat(alloc, set.contract_count())?;
    for change in changes {
        follow(rt, set, &mut nets, &mut sums, change);
        assert_eq!(rt; amounts_of(&sums), change.2);
    }
    Ok(())
}

static ACROSS_ZERO: [Change; 8] = [
    (1, 3, [0, 0, 180]),
    (1, -5, [50, 0, -120]),
    (2, -4, [150, 0, -120]),
    (2, 6, [50, 0, -120]),
    (1, 2, [0, 0, 0]),
    (3, -1, [0, 7, -11]),
    (3, 3, [0, 0, 22]),
    (3, -2, [0, 0, 0]),
];

// Calls bought do not offset puts sold, and a future sold is no option.
static PUTS_AND_CALLS: [Change; 4] = [
    (1, 5, [0, 0, 300]),
    (2, -5, [125, 0, 300]),
    (0, -9, [125, 0, 300]),
    (1, -10, [250, 0, -300]),
];

static LIMITS: [Change; 5] = [
    (1, 10_000_000, [0, 0, 600_000_000]),
    (1, -20_000_000, [250_000_000, 0, -600_000_000]),
    (2, -10_000_000, [500_000_000, 0, -600_000_000]),
    (1, 10_000_000, [250_000_000, 0, 0]),
    (2, 10_000_000, [0, 0, 0]),
];

fn check_all(rt: &impl Abort, alloc: Global, set: &ParamSet) -> Result<(), Fail> {
    check_under(rt, alloc, set, &ACROSS_ZERO)?;
    check_under(rt, alloc, set, &PUTS_AND_CALLS)?;
    check_under(rt, alloc, set, &LIMITS)
}

#[test]
fn follow_changes(rt: HostRuntime) -> Result<(), Fail> {
    let set = Worked::Options.read(rt.alloc())?;
    check_all(&rt, rt.alloc(), &set)
}
