ghost use Rattle.std.specs.Prelude.{◌*◌, ◌<◌, ◌≤◌, ◌^◌, length, unsigned_abs};
ghost use Rattle.mgn_scan.specs.Totals.{AreTotals};

use crate::side::one_contract;
use mgn_nets::Nets;
use mgn_num::Quantity;
use mgn_params::{ParamSet, Work};
use mgn_scan::ScanTotals;
use std::io;
use std::rt::Clock;
use std::time::Instant;

/// Changes a net, and the totals after it. A change that would take the net past its limit is not made.
pub fn follow(
    set: &ParamSet,
    nets: &mut Nets,
    totals: &mut ScanTotals,
    i: usize,
    quantity: Quantity,
    work: &mut Work,
)
    requires totals { AreTotals set.now nets.old totals.old }
    requires contract { i < length set.now.contracts }
    requires quantity { unsigned_abs quantity ≤ 2 * 10 ^ 7 }
    ensures { AreTotals set.now nets.new totals.new }
{
    let net = nets.at(i).plus(quantity);
    if net.size() <= 10_000_000 {
        totals.add(set, nets, i, quantity, work);
        nets.add(i, quantity);
    }
}

// A contract more, or less, of each.
fn follow_all(
    set: &ParamSet,
    nets: &mut Nets,
    totals: &mut ScanTotals,
    quantity: Quantity,
    work: &mut Work,
)
    requires totals { AreTotals set.now nets.old totals.old }
    requires quantity { unsigned_abs quantity ≤ 2 * 10 ^ 7 }
    ensures { AreTotals set.now nets.new totals.new }
{
    for i in 0..set.contract_count() {
        follow(set, nets, totals, i, quantity, work);
    }
}

/// The nanoseconds of so many rounds, each of which buys or sells a contract of each.
pub fn measure(
    clock: &impl Clock,
    set: &ParamSet,
    nets: &mut Nets,
    totals: &mut ScanTotals,
    rounds: usize,
) -> io::Result<u128>
    requires { AreTotals set.now nets.old totals.old }
    ensures { AreTotals set.now nets.new totals.new }
{
    let mut work = Work::new();
    let start = Instant::now(clock)?;
    for round in 0..rounds {
        follow_all(set, nets, totals, one_contract(round % 2 == 0), &mut work);
    }
    Ok(start.elapsed(clock)?.as_nanos())
}

/// The nanoseconds of so many rounds, each of which asks for the scan risk and the doubled price risk of each commodity,
/// and what the answers come to.
pub fn measure_questions(
    clock: &impl Clock,
    totals: &ScanTotals,
    commodities: usize,
    rounds: usize,
) -> io::Result<(u128, i128)>
    requires { commodities ≤ length totals.now }
{
    let mut sum: i128 = 0;
    let start = Instant::now(clock)?;
    for _ in 0..rounds {
        for g in 0..commodities {
            sum = sum.wrapping_add(totals.scan(g).amount());
            sum = sum.wrapping_add(totals.price_risk2(g).amount());
        }
    }
    Ok((start.elapsed(clock)?.as_nanos(), sum))
}
