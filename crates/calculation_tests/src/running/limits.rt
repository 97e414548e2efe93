//! Month deltas and net deltas at their limit, and price risks near theirs.

ghost use Rattle.std.specs.Prelude.{◌+◌, ◌<◌};

use super::running_parts::RunningParts;
use crate::sets::read_text;
use mgn_params::ParamSet;
use std::alloc::{AllocError, Global};
use std::process::Abort;
use std::test::Fail;

// All nets at a limit, and what 256 of them come to at a delta of 100,000 and at one of -100,000.
const BOTH: [(i64, i128, i128); 2] = [
    (10_000_000, 256_000_000_000_000, -256_000_000_000_000),
    (-10_000_000, -256_000_000_000_000, 256_000_000_000_000),
];

// Commodities whose contracts stand in one month, or in two.
const TABLES: &str = "H,2,LIMITS\n\
G,AAA,25\n\
G,BBB,25\n\
G,CCC,25\n\
M,AAA,1,1\n\
M,BBB,1,1\n\
M,BBB,2,2\n\
M,CCC,1,1\n";

const SPREADS: &str = "S,BBB,1,30000,2,10000,40\n\
T,AAA,1,30,50\n\
T,BBB,1,30,50\n\
I,5000,AAA,A,10000,CCC,B,20000\n\
I,10000,AAA,A,10000,BBB,B,10000\n";

// Values at their limit, which gain where the price stands, and the other way round.
const FIRST_ARRAY: &str = "-100000000,-100000000,100000000,100000000,0,0,0,0,0,0,0,0,0,0,0,0";

const SECOND_ARRAY: &str = "100000000,100000000,-100000000,-100000000,0,0,0,0,0,0,0,0,0,0,0,0";

// A contract of each commodity, at the largest delta.
fn push_contracts(out: &mut String, k: usize) -> Result<(), AllocError>
    requires { k < 256 }
{
    let month = k / 128 + 1;
    let sign = if k < 128 { "" } else { "-" };
    write!(out, "K,A{k},AAA,1,F,F,100000,0,{FIRST_ARRAY}\n")?;
    write!(out, "K,B{k},BBB,{month},F,F,{sign}100000,0,{FIRST_ARRAY}\n")?;
    write!(out, "K,C{k},CCC,1,F,F,-100000,0,{SECOND_ARRAY}\n")
}

// As many contracts as a commodity may have. Those of the first and of the last all stand in one month.
fn limits_file(alloc: Global) -> Result<String, AllocError> {
    let mut out = String::new(alloc);
    out.push_str(TABLES)?;
    for k in 0..256 {
        push_contracts(&mut out, k)?;
    }
    out.push_str(SPREADS)?;
    Ok(out)
}

// Brings all nets to so many contracts, and compares after some of the changes.
fn bring_all(
    rt: &impl Abort,
    alloc: Global,
    kept: &mut RunningParts,
    count: usize,
    contracts: i64,
) -> Result<(), Fail> {
    for i in 0..count {
        kept.trade(rt, i, contracts);
        if i % 64 == 63 {
            kept.agree(rt, alloc)?;
        }
    }
    Ok(())
}

// What all nets at a limit come to, and half of that in each month of the second commodity. Its spreads: 128 times
// 10^7 contracts at 10 are 128 * 10^12 a leg, and 42,666,666,666,666 at the ratio of 3; at 40 cents for 10,000.
// All of the first commodity is outright at 50.
fn expect_all(rt: &impl Abort, kept: &RunningParts, long: i128, short: i128) {
    kept.expect_month_delta(rt, 0, long);
    kept.expect_month_delta(rt, 1, long / 2);
    kept.expect_month_delta(rt, 2, short / 2);
    kept.expect_net_delta(rt, 0, long);
    kept.expect_net_delta(rt, 1, 0);
    kept.expect_net_delta(rt, 2, short);
    kept.expect_intra(rt, 0, 0);
    kept.expect_intra(rt, 1, 170_666_666_667);
    kept.expect_spot(rt, 0, 1_280_000_000_000);
}

// Brings all nets to one limit and then to the other.
fn bring_to_both(
    rt: &impl Abort,
    alloc: Global,
    kept: &mut RunningParts,
    count: usize,
) -> Result<(), Fail> {
    for (contracts, long, short) in &BOTH {
        bring_all(rt, alloc, kept, count, *contracts)?;
        expect_all(rt, kept, *long, *short);
    }
    Ok(())
}

fn agree_at_limits(rt: &impl Abort, alloc: Global, set: &ParamSet) -> Result<(), Fail> {
    let mut kept = RunningParts::new(alloc, set)?;
    bring_to_both(rt, alloc, &mut kept, set.contract_count())
}

#[test]
fn follow_the_calculation_at_the_limits(rt: HostRuntime) -> Result<(), Fail> {
    let file = limits_file(rt.alloc())?;
    let set = read_text(rt.alloc(), &file)?;
    agree_at_limits(&rt, rt.alloc(), &set)
}
