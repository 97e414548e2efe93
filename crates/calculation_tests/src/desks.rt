//! Desks beside the requirement worked out anew, after each of many random changes. Each run draws the same numbers.

mod beside;

ghost use Rattle.std.specs.Prelude.{◌<◌};

use crate::sets::{WITH_CONTRACTS, Worked, read_text};
use beside::{Beside, FourNets, LARGEST_NET};
use mgn_desk::Moves;
use mgn_nets::Portfolios;
use mgn_num::Cents;
use mgn_params::ParamSet;
use rand::RngExt;
use rand_pcg::Pcg32;
use std::alloc::Global;
use std::process::Abort;
use std::test::Fail;
use worked_sets::{Shape, calls, shaped};

const SEED: u64 = 20_261_124;

const CHANGES: usize = 300;

// Where a net may go: near a limit, to 0, or to a small number on either side.
fn some_net(rng: &mut Pcg32) -> i64 {
    match rng.random_range(0u8..8) {
        0 => LARGEST_NET - rng.random_range(0i64..4),
        1 => rng.random_range(0i64..4) - LARGEST_NET,
        2 => 0,
        _ => rng.random_range(-9i64..10),
    }
}

// A net that moves with others, where that leaves it within its limits.
fn moved(net: i64, quantity: i64, is_moved: bool) -> i64 {
    let after = net.saturating_add(quantity);
    if is_moved && -LARGEST_NET <= after && after <= LARGEST_NET {
        after
    } else {
        net
    }
}

// Where the nets of a contract go: each its own way, or all by one quantity, or some of them.
fn some_nets(rng: &mut Pcg32, old: &FourNets) -> FourNets {
    if rng.random_range(0u8..3) == 0 {
        return FourNets {
            lots: some_net(rng),
            buys: some_net(rng),
            sales: some_net(rng),
            all: some_net(rng),
        };
    }
    let quantity = some_net(rng).saturating_sub(old.lots);
    let together: bool = rng.random();
    FourNets {
        lots: moved(old.lots, quantity, together || rng.random()),
        buys: moved(old.buys, quantity, together || rng.random()),
        sales: moved(old.sales, quantity, together || rng.random()),
        all: moved(old.all, quantity, together || rng.random()),
    }
}

// Takes moves back, after which all is as it was before them.
fn take_back(
    rt: &impl Abort,
    alloc: Global,
    beside: &mut Beside,
    moves: &Moves,
    old: &FourNets,
    before: &Portfolios<Cents>,
) -> Result<(), Fail> {
    beside.take_back(rt, moves, old);
    let after = beside.agree(rt, alloc)?;
    assert_eq!(rt; after, *before);
    Ok(())
}

// Whether the portfolios require different amounts.
fn are_apart(required: &Portfolios<Cents>) -> bool {
    required.lots != required.buys && required.sales != required.all
}

// Moves the nets of a contract, and takes that back now and then. Whether the portfolios then require different amounts.
fn change(
    rt: &impl Abort,
    alloc: Global,
    rng: &mut Pcg32,
    beside: &mut Beside,
    contract: usize,
) -> Result<bool, Fail> {
    let old = beside.nets_of(rt, contract);
    let before = beside.agree(rt, alloc)?;
    let moves = beside.bring(rt, contract, &some_nets(rng, &old));
    let after = beside.agree(rt, alloc)?;
    if rng.random_range(0u8..4) == 0 {
        take_back(rt, alloc, beside, &moves, &old, &before)?;
    }
    Ok(are_apart(&after))
}

// Marks the desk anew now and then, and half of these times with the nets of the lots in all portfolios.
fn mark_anew(alloc: Global, rng: &mut Pcg32, beside: &mut Beside) -> Result<(), Fail> {
    match rng.random_range(0u8..40) {
        0 => beside.mark_as_lots(alloc)?,
        1 => beside.mark(alloc)?,
        _ => {}
    }
    Ok(())
}

// A random change, before it a new mark now and then.
fn change_any(
    rt: &impl Abort,
    alloc: Global,
    rng: &mut Pcg32,
    beside: &mut Beside,
    count: usize,
) -> Result<bool, Fail>
    requires { 0 < count }
{
    mark_anew(alloc, rng, beside)?;
    let contract = rng.random_range(0..count);
    change(rt, alloc, rng, beside, contract)
}

// The numbers of a stream.
fn numbers(stream: u64) -> Pcg32 {
    Pcg32::new(SEED, stream)
}

// Compares after each of many changes, and tells how many of these lead to different requirements.
fn follow(
    rt: &impl Abort,
    alloc: Global,
    rng: &mut Pcg32,
    beside: &mut Beside,
    count: usize,
) -> Result<usize, Fail>
    requires { 0 < count }
{
    let mut apart: usize = 0;
    for _ in 0..CHANGES {
        if change_any(rt, alloc, rng, beside, count)? {
            apart = apart.saturating_add(1);
        }
    }
    Ok(apart)
}

// Whether some changes led to different requirements.
fn expect_apart(rt: &impl Abort, apart: usize) {
    assert!(rt; CHANGES / 10 < apart, "apart {apart} times");
}

// Follows the changes of a stream, of which some lead to different requirements.
fn follow_stream(
    rt: &impl Abort,
    alloc: Global,
    beside: &mut Beside,
    count: usize,
    stream: u64,
) -> Result<(), Fail>
    requires { 0 < count }
{
    let mut rng = numbers(stream);
    let apart = follow(rt, alloc, &mut rng, beside, count)?;
    expect_apart(rt, apart);
    Ok(())
}

// Whether all agrees after each of many changes, of which some lead to different requirements.
fn agree_after_all(
    rt: &impl Abort,
    alloc: Global,
    set: &ParamSet,
    stream: u64,
) -> Result<(), Fail> {
    let count = set.contract_count();
    assert!(rt; 0 < count);
    let mut beside = Beside::new(alloc, set)?;
    follow_stream(rt, alloc, &mut beside, count, stream)
}

fn check_worked(rt: &impl Abort, alloc: Global, worked: Worked, stream: u64) -> Result<(), Fail> {
    let set = worked.read(alloc)?;
    agree_after_all(rt, alloc, &set, stream)
}

#[test]
fn desks_of_worked_sets(rt: HostRuntime) -> Result<(), Fail> {
    for (i, worked) in WITH_CONTRACTS.iter().enumerate() {
        check_worked(&rt, rt.alloc(), *worked, i as u64)?;
    }
    Ok(())
}

// Few commodities with many spreads, many with few, and one future.
const SHAPES: [Shape; 4] = [
    Shape {
        commodities: 3,
        months: 7,
        contracts: 9,
        spreads: 9,
        credits: 2,
    },
    Shape {
        commodities: 2,
        months: 16,
        contracts: 40,
        spreads: 32,
        credits: 1,
    },
    Shape {
        commodities: 12,
        months: 2,
        contracts: 3,
        spreads: 2,
        credits: 11,
    },
    Shape {
        commodities: 1,
        months: 1,
        contracts: 1,
        spreads: 0,
        credits: 0,
    },
];

fn check_shape(rt: &impl Abort, alloc: Global, shape: Shape, stream: u64) -> Result<(), Fail> {
    assert!(rt; shape.is_within_limits());
    let file = shaped(alloc, shape)?;
    let set = read_text(alloc, &file)?;
    agree_after_all(rt, alloc, &set, stream)
}

#[test]
fn desks_of_shaped_sets(rt: HostRuntime) -> Result<(), Fail> {
    for (i, shape) in SHAPES.iter().enumerate() {
        check_shape(&rt, rt.alloc(), *shape, 100 + i as u64)?;
    }
    Ok(())
}

#[test]
fn desks_of_calls(rt: HostRuntime) -> Result<(), Fail> {
    let file = calls(rt.alloc(), 4, 6)?;
    let set = read_text(rt.alloc(), &file)?;
    agree_after_all(&rt, rt.alloc(), &set, 200)
}

// Where the lots of a contract, and these with the held buys, go by a trade of 2, by an order for 3 more and by its
// fill, and how many risk arrays each of these reads.
const COMMANDS: [(i64, i64, u64); 3] = [(2, 2, 4), (2, 5, 2), (5, 5, 2)];

// What so many contracts require at 300 each.
fn cents_of(contracts: i64) -> Cents {
    Cents::new(i128::from(contracts) * 300)
}

// Brings the first contract there. It requires 300 a contract, by the desk and anew.
fn check_command(
    rt: &impl Abort,
    alloc: Global,
    beside: &mut Beside,
    command: (i64, i64, u64),
) -> Result<(), Fail> {
    let (lots, buys, arrays) = command;
    let nets = FourNets {
        lots,
        buys,
        sales: lots,
        all: buys,
    };
    let (_, read) = beside.bring_counted(rt, 0, &nets);
    assert_eq!(rt; read, arrays);
    let required = beside.agree(rt, alloc)?;
    let (by_lots, with_buys) = (cents_of(lots), cents_of(buys));
    assert_eq!(rt; (required.lots, required.buys), (by_lots, with_buys));
    assert_eq!(rt; (required.sales, required.all), (by_lots, with_buys));
    Ok(())
}

fn check_commands(rt: &impl Abort, alloc: Global, beside: &mut Beside) -> Result<(), Fail> {
    for command in COMMANDS.iter() {
        check_command(rt, alloc, beside, *command)?;
    }
    Ok(())
}

#[test]
fn a_trade_reads_four_arrays_and_a_hold_and_a_fill_two(rt: HostRuntime) -> Result<(), Fail> {
    let set = Worked::One.read(rt.alloc())?;
    let mut beside = Beside::new(rt.alloc(), &set)?;
    check_commands(&rt, rt.alloc(), &mut beside)
}
