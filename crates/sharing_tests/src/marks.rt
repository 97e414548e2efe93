//! What units require under a set to come, asked of the workers themselves: worked out by hand, and the same by the
//! caller alone, by one and by more than there are units.

ghost use Rattle.std.specs.Prelude.{◌<◌, ◌≤◌, All, IfOk};
ghost use Rattle.mgn_span.specs.Positions.{IsNet};
ghost use Rattle.mgn_nets.specs.Portfolios.{AreNets, AreUnitNets};

use mgn_nets::{Nets, Portfolios};
use mgn_num::Quantity;
use mgn_params::ParamSet;
use mgn_prepare::{UnitGate, mark_all, mark_alone};
use mgn_setfile::read_set;
use mgn_unit::{CopiedNets, PreparedUnit};
use std::alloc::{AllocError, Global};
use std::process::Abort;
use std::sync::atomic::{AtomicU64, Ordering};
use std::test::Fail;
use std::thread::Threads;
use worked_sets::{one, two};

/// How many units there are.
const UNITS: usize = 2;

// How many contracts the sets have.
const CONTRACTS: usize = 4;

// The nets of both units: two of one month against two of the next, and one contract against two of another commodity.
const HELD: [[i8; CONTRACTS]; UNITS] = [[2, -2, 0, 0], [1, 0, 0, -2]];

// Counts how often workers came to each unit.
#[derive(Drop)]
struct Visits {
    units: [AtomicU64; UNITS],
    beyond: AtomicU64,
}

impl Visits {
    fn none() -> Visits {
        Visits {
            units: [AtomicU64::new(0), AtomicU64::new(0)],
            beyond: AtomicU64::new(0),
        }
    }

    // Whether each unit was come to once.
    fn are_one_each(&self) -> bool {
        let [first, second] = &self.units;
        first.load(Ordering::SeqCst) == 1
            && second.load(Ordering::SeqCst) == 1
            && self.beyond.load(Ordering::SeqCst) == 0
    }
}

impl UnitGate for Visits {
    fn before(&self, unit: usize) {
        let count = self.units.get(unit).unwrap_or(&self.beyond);
        let _ = count.fetch_add(1, Ordering::SeqCst);
    }
}

// A net of so many contracts.
fn net(contracts: i8) -> Quantity
    ensures { IsNet result }
{
    Quantity::new(i64::from(contracts))
}

// Nets of so many of each contract.
fn nets_of(
    rt: &impl Abort,
    alloc: Global,
    set: &ParamSet,
    held: &[i8; CONTRACTS],
) -> Result<Nets, AllocError>
    ensures { IfOk result (AreNets set.now) }
{
    assert_eq!(rt; set.contract_count(), CONTRACTS);
    let [first, second, third, fourth] = held;
    Nets::of(
        alloc,
        &[net(*first), net(*second), net(*third), net(*fourth)],
    )
}

// A unit that holds these lots, and has no orders.
fn unit_of(
    rt: &impl Abort,
    alloc: Global,
    set: &ParamSet,
    held: &[i8; CONTRACTS],
) -> Result<CopiedNets, AllocError>
    ensures { IfOk result (AreUnitNets set.now) }
{
    Ok(Portfolios {
        lots: nets_of(rt, alloc, set, held)?,
        buys: nets_of(rt, alloc, set, held)?,
        sales: nets_of(rt, alloc, set, held)?,
        all: nets_of(rt, alloc, set, held)?,
    })
}

// Both units.
fn units_of(rt: &impl Abort, alloc: Global, set: &ParamSet) -> Result<Vec<CopiedNets>, AllocError>
    ensures { IfOk result (λ units. All (AreUnitNets set.now) units.items) }
{
    let [first, second] = &HELD;
    let first = unit_of(rt, alloc, set, first)?;
    let second = unit_of(rt, alloc, set, second)?;
    let mut units = Vec::with_capacity(alloc, UNITS)?;
    units.push(first)?;
    units.push(second)?;
    Ok(units)
}

// Whether each portfolio of a unit requires this.
fn requires_all(unit: &Option<PreparedUnit>, cents: i128) -> bool {
    let Some(unit) = unit else { return false };
    unit.lots.requirement.amount() == cents
        && unit.buys.requirement.amount() == cents
        && unit.sales.requirement.amount() == cents
        && unit.all.requirement.amount() == cents
}

// Each unit was come to once, and requires what is wanted; by so many workers, or by the caller alone.
fn check(
    rt: &impl Abort,
    marks: &[Option<PreparedUnit>],
    visits: &Visits,
    workers: usize,
    wanted: [i128; UNITS],
) {
    assert_eq!(rt; marks.len(), UNITS);
    assert!(rt;
        requires_all(&marks[0], wanted[0]),
        "the first by {workers}"
    );
    assert!(rt;
        requires_all(&marks[1], wanted[1]),
        "the second by {workers}"
    );
    assert!(rt; visits.are_one_each(), "by {workers}");
}

// Has both units worked out under a new set by so many workers.
fn check_workers<R: Threads + Abort + Sync>(
    rt: &R,
    alloc: Global,
    old: &ParamSet,
    new: &ParamSet,
    workers: usize,
    wanted: [i128; UNITS],
) -> Result<(), AllocError>
    requires some { 0 < workers }
    requires few { workers ≤ 64 }
{
    let visits = Visits::none();
    let nets = units_of(rt, alloc, old)?;
    let marks = mark_all(rt, alloc, old, new, nets, workers, &visits)?;
    check(rt, &marks, &visits, workers, wanted);
    Ok(())
}

// The same by the caller alone.
fn check_alone(
    rt: &impl Abort,
    alloc: Global,
    old: &ParamSet,
    new: &ParamSet,
    wanted: [i128; UNITS],
) -> Result<(), AllocError> {
    let visits = Visits::none();
    let nets = units_of(rt, alloc, old)?;
    let marks = mark_alone(alloc, old, new, &nets, &visits)?;
    check(rt, &marks, &visits, 0, wanted);
    Ok(())
}

// What both units require under the sets themselves and under twice their moves, by any number of workers.
fn check_all<R: Threads + Abort + Sync>(
    rt: &R,
    alloc: Global,
    old: &ParamSet,
    new: &ParamSet,
    wanted: [i128; UNITS],
) -> Result<(), AllocError> {
    check_alone(rt, alloc, old, new, wanted)?;
    check_workers(rt, alloc, old, new, 1, wanted)?;
    check_workers(rt, alloc, old, new, 3, wanted)
}

#[test]
fn units_are_marked_in_order_by_any_number_of_workers(rt: HostRuntime) -> Result<(), Fail> {
    let first = read_set(rt.alloc(), one().as_bytes())?;
    let second = read_set(rt.alloc(), two().as_bytes())?;
    check_all(&rt, rt.alloc(), &first, &first, [140, 300])?;
    check_all(&rt, rt.alloc(), &first, &second, [200, 600])?;
    Ok(())
}
