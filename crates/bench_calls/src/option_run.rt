ghost use Rattle.std.specs.Prelude.{◌*◌, ◌<◌, ◌≤◌, ◌^◌, length, unsigned_abs};
ghost use Rattle.mgn_option.specs.Sums.{AreSums};

use crate::side::one_contract;
use mgn_nets::Nets;
use mgn_num::Quantity;
use mgn_option::OptionSums;
use mgn_params::ParamSet;
use std::io;
use std::rt::Clock;
use std::time::Instant;

/// Changes a net and its sums. A change that would take the net past its limit is not made.
pub fn follow(set: &ParamSet, nets: &mut Nets, sums: &mut OptionSums, i: usize, quantity: Quantity)
    requires sums { AreSums set.now nets.old sums.old }
    requires contract { i < length set.now.contracts }
    requires quantity { unsigned_abs quantity ≤ 2 * 10 ^ 7 }
    ensures { AreSums set.now nets.new sums.new }
{
    let net = nets.at(i).plus(quantity);
    if net.size() <= 10_000_000 {
        sums.add(set, nets, i, quantity);
        nets.add(i, quantity);
    }
}

// A contract more, or less, of each.
fn follow_all(set: &ParamSet, nets: &mut Nets, sums: &mut OptionSums, quantity: Quantity)
    requires sums { AreSums set.now nets.old sums.old }
    requires quantity { unsigned_abs quantity ≤ 2 * 10 ^ 7 }
    ensures { AreSums set.now nets.new sums.new }
{
    for i in 0..set.contract_count() {
        follow(set, nets, sums, i, quantity);
    }
}

/// The nanoseconds of so many rounds, each of which sells or buys back a contract of each.
pub fn measure(
    clock: &impl Clock,
    set: &ParamSet,
    nets: &mut Nets,
    sums: &mut OptionSums,
    rounds: usize,
) -> io::Result<u128>
    requires { AreSums set.now nets.old sums.old }
{
    let start = Instant::now(clock)?;
    for round in 0..rounds {
        follow_all(set, nets, sums, one_contract(round % 2 == 1));
    }
    Ok(start.elapsed(clock)?.as_nanos())
}
