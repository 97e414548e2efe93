//! What is kept of nets, beside the calculation recomputed from scratch, after each of many changes.

mod limits;
mod running_parts;

ghost use Rattle.std.specs.Prelude.{◌<◌};

use crate::sets::{WITH_CONTRACTS, Worked, read_text};
use mgn_params::ParamSet;
use running_parts::RunningParts;
use std::alloc::Global;
use std::process::Abort;
use std::test::Fail;
use worked_sets::{Shape, calls, shaped};

// Contracts, counted round the set, and the net that each change brings them to: long, short, across 0 and to both
// limits.
const CHANGES: [(usize, i64); 28] = [
    (0, 3),
    (1, -5),
    (2, -1),
    (3, -2),
    (3, -7),
    (2, 4),
    (0, -4),
    (1, 6),
    (3, 9),
    (1, 0),
    (0, 10_000_000),
    (3, -10_000_000),
    (1, -10_000_000),
    (2, 10_000_000),
    (1, -9_999_999),
    (0, -10_000_000),
    (3, 10_000_000),
    (2, -10_000_000),
    (1, 10_000_000),
    (3, 3_333_333),
    (0, -1),
    (2, 1),
    (1, -7),
    (3, 0),
    (0, 6_666_667),
    (1, 0),
    (2, 0),
    (0, 0),
];

// Makes the changes, and compares after each.
fn follow_all(
    rt: &impl Abort,
    alloc: Global,
    kept: &mut RunningParts,
    count: usize,
) -> Result<(), Fail>
    requires { 0 < count }
{
    for (contract, net) in &CHANGES {
        kept.trade(rt, *contract % count, *net);
        kept.agree(rt, alloc)?;
    }
    Ok(())
}

// Whether all agrees after each of the changes.
fn agree_after_all(rt: &impl Abort, alloc: Global, set: &ParamSet) -> Result<(), Fail> {
    let count = set.contract_count();
    assert!(rt; 0 < count);
    let mut kept = RunningParts::new(alloc, set)?;
    follow_all(rt, alloc, &mut kept, count)
}

fn check_worked(rt: &impl Abort, alloc: Global, worked: Worked) -> Result<(), Fail> {
    let set = worked.read(alloc)?;
    agree_after_all(rt, alloc, &set)
}

#[test]
fn follow_the_calculation(rt: HostRuntime) -> Result<(), Fail> {
    for worked in &WITH_CONTRACTS {
        check_worked(&rt, rt.alloc(), *worked)?;
    }
    Ok(())
}

#[test]
fn follow_the_calculation_of_calls(rt: HostRuntime) -> Result<(), Fail> {
    let file = calls(rt.alloc(), 3, 5)?;
    let set = read_text(rt.alloc(), &file)?;
    agree_after_all(&rt, rt.alloc(), &set)
}

// A net for each change: small ones, and ones near both limits.
fn contracts_of(k: usize) -> i64
    requires { k < 1000 }
{
    let contracts = ((k * 13 + k / 3) % 15) as i64 - 7;
    match k % 4 {
        0 => contracts * 1_428_571,
        1 => contracts * 1_000,
        _ => contracts,
    }
}

// Many changes, each compared.
fn follow_many(
    rt: &impl Abort,
    alloc: Global,
    kept: &mut RunningParts,
    count: usize,
) -> Result<(), Fail>
    requires { 0 < count }
{
    for k in 0..300 {
        kept.trade(rt, (k * 7 + k / 5) % count, contracts_of(k));
        kept.agree(rt, alloc)?;
    }
    Ok(())
}

// Whether all agrees after each of many changes.
fn agree_after_many(rt: &impl Abort, alloc: Global, set: &ParamSet) -> Result<(), Fail> {
    let count = set.contract_count();
    assert!(rt; 0 < count);
    let mut kept = RunningParts::new(alloc, set)?;
    follow_many(rt, alloc, &mut kept, count)
}

#[test]
fn follow_the_calculation_with_many_spreads(rt: HostRuntime) -> Result<(), Fail> {
    let shape = Shape {
        commodities: 3,
        months: 7,
        contracts: 9,
        spreads: 9,
        credits: 2,
    };
    let file = shaped(rt.alloc(), shape)?;
    let set = read_text(rt.alloc(), &file)?;
    agree_after_many(&rt, rt.alloc(), &set)
}
