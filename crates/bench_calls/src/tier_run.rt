ghost use Rattle.std.specs.Prelude.{◌≡◌, ◌*◌, ◌<◌, ◌≤◌, ◌^◌, length, unsigned_abs, All};
ghost use Rattle.mgn_span.specs.Positions.{IsNet};
ghost use Rattle.mgn_tiers.specs.Tiers.{AreTiersOf};

use crate::nets::net_at;
use crate::runs::{change, charges, delta_of};
use mgn_num::Quantity;
use mgn_params::ParamSet;
use mgn_tiers::TierStages;
use std::io;
use std::rt::Clock;
use std::time::Instant;

// How a net changes where it turns to its opposite, and back.
fn turn(nets: &[Quantity], contract: usize, is_back: bool) -> Quantity
    requires contract { contract < length nets.now }
    requires nets { All IsNet nets.now }
    ensures { unsigned_abs result ≤ 2 * 10 ^ 7 }
{
    let net = net_at(nets, contract);
    let both = net.plus(net);
    if is_back { both } else { both.negated() }
}

/// Takes the nets into the month deltas.
pub fn open_all(set: &ParamSet, nets: &[Quantity], tiers: &mut TierStages)
    requires one_each { length nets.now ≡ length set.now.contracts }
    requires nets { All IsNet nets.now }
    requires tiers { AreTiersOf set.now tiers.old }
    ensures { AreTiersOf set.now tiers.new }
{
    set.limits();
    for i in 0..set.contract_count() {
        let delta = delta_of(set, i, net_at(nets, i));
        change(set, tiers, set.contract_at(i).month, delta);
    }
}

// Turns each net, with the two questions after each change; what the answers come to.
fn turn_all(set: &ParamSet, nets: &[Quantity], tiers: &mut TierStages, is_back: bool) -> i128
    requires one_each { length nets.now ≡ length set.now.contracts }
    requires nets { All IsNet nets.now }
    requires tiers { AreTiersOf set.now tiers.old }
    ensures { AreTiersOf set.now tiers.new }
{
    set.limits();
    let mut answers: i128 = 0;
    for i in 0..set.contract_count() {
        let month = set.contract_at(i).month;
        let delta = delta_of(set, i, turn(nets, i, is_back));
        change(set, tiers, month, delta);
        answers = answers.wrapping_add(charges(set, tiers, month));
    }
    answers
}

/// The nanoseconds of so many rounds, each of which turns the net of each contract to its opposite or back and asks for
/// both charges after each change, and what the answers come to.
pub fn measure(
    clock: &impl Clock,
    set: &ParamSet,
    nets: &[Quantity],
    tiers: &mut TierStages,
    rounds: usize,
) -> io::Result<(u128, i128)>
    requires one_each { length nets.now ≡ length set.now.contracts }
    requires nets { All IsNet nets.now }
    requires tiers { AreTiersOf set.now tiers.old }
    ensures { AreTiersOf set.now tiers.new }
{
    let mut answers: i128 = 0;
    let start = Instant::now(clock)?;
    for round in 0..rounds {
        answers = answers.wrapping_add(turn_all(set, nets, tiers, round % 2 == 1));
    }
    Ok((start.elapsed(clock)?.as_nanos(), answers))
}
