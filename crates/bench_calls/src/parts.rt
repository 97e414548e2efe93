//! What a change of one net costs in the parts that follow it, in sets of different sizes, and what the whole calculation,
//! recomputed from scratch, costs on the same nets.

ghost use Rattle.std.specs.Prelude.{◌≡◌, ◌≤◌, pos, length, replicate, IfOk};

use crate::{option_run, plain_run, scan_run};
use anyhow::{Result, bail};
use mgn_nets::Nets;
use mgn_option::OptionSums;
use mgn_params::ParamSet;
use mgn_scan::ScanTotals;
use mgn_setfile::read_set;
use std::alloc::{AllocError, Global};
use std::rt::Clock;
use worked_sets::calls;

/// As many changes are measured in each set.
const CHANGES: usize = 1_048_576;

/// As many requirements are recomputed from scratch.
const ANEW: usize = 100;

/// How many commodities the measured sets have, and how many contracts each of them.
const SETS: [(usize, usize); 6] = [(1, 1), (1, 16), (1, 256), (16, 1), (256, 1), (256, 16)];

// The file of a set of so many commodities, with so many contracts each, read.
fn set_of(alloc: Global, commodities: usize, contracts: usize) -> Result<ParamSet>
    requires commodities { commodities ≤ 256 }
    requires contracts { contracts ≤ 256 }
{
    let file = calls(alloc, commodities, contracts)?;
    let Ok(set) = read_set(alloc, file.as_bytes()) else {
        bail!("the set is not read");
    };
    Ok(set)
}

// Nanoseconds that the calls of each kind took, and what their answers come to.
#[derive(Clone, Copy)]
struct Costs {
    totals: u128,
    sums: u128,
    questions: u128,
    anew: u128,
    answers: i128,
}

// How often each contract is changed: an odd number, which leaves each net at one contract, so that the requirement
// anew reads each array.
fn rounds_of(set: &ParamSet) -> usize {
    CHANGES / set.contract_count().max(1) + 1
}

// Nets of 0.
fn flat_nets(alloc: Global, set: &ParamSet) -> Result<Nets, AllocError>
    ensures { IfOk result (λ nets. nets ≡ replicate (length set.now.contracts) (pos 0)) }
{
    set.limits();
    Nets::flat(alloc, set.contract_count())
}

fn measure(clock: &impl Clock, alloc: Global, set: &ParamSet) -> Result<Costs> {
    let rounds = rounds_of(set);
    let mut totals = ScanTotals::new(alloc, set)?;
    let mut sums = OptionSums::new(alloc, set)?;
    let mut followed_nets = flat_nets(alloc, set)?;
    let mut summed_nets = flat_nets(alloc, set)?;
    let followed = scan_run::measure(clock, set, &mut followed_nets, &mut totals, rounds)?;
    let summed = option_run::measure(clock, set, &mut summed_nets, &mut sums, rounds)?;
    let commodities = set.commodity_count();
    let (asked, first) = scan_run::measure_questions(clock, &totals, commodities, rounds)?;
    let (anew, second) = plain_run::measure(clock, alloc, set, &followed_nets, ANEW)?;
    Ok(Costs {
        totals: followed,
        sums: summed,
        questions: asked,
        anew,
        answers: first.wrapping_add(second),
    })
}

// What one of so many calls took, in picoseconds.
fn each(nanoseconds: u128, calls: usize) -> u128 {
    nanoseconds.saturating_mul(1_000) / calls.max(1) as u128
}

fn report_size(rt: &impl Print, set: &ParamSet) -> Result<()> {
    println!(rt;
        "{} commodities, {} contracts:",
        set.commodity_count(),
        set.contract_count()
    )?;
    Ok(())
}

// The costs of a change and of its questions.
fn report_changes(rt: &impl Print, set: &ParamSet, costs: Costs) -> Result<()> {
    let rounds = rounds_of(set);
    let changes = rounds.saturating_mul(set.contract_count());
    let questions = rounds.saturating_mul(set.commodity_count());
    println!(rt;
        "  {} {} {}",
        each(costs.totals, changes),
        each(costs.sums, changes),
        each(costs.questions, questions)
    )?;
    Ok(())
}

// The cost of working the requirement out anew.
fn report_anew(rt: &impl Print, costs: Costs) -> Result<()> {
    println!(rt;
        "  {} anew (answers {})",
        each(costs.anew, ANEW),
        costs.answers
    )?;
    Ok(())
}

fn report_costs(rt: &(impl Clock + Print), alloc: Global, set: &ParamSet) -> Result<()> {
    let costs = measure(rt, alloc, set)?;
    report_size(rt, set)?;
    report_changes(rt, set, costs)?;
    report_anew(rt, costs)
}

/// Measures and tells them.
pub(crate) fn run(rt: &(impl AllocGlobal + Clock + Print)) -> Result<()> {
    println!(rt;
        "picoseconds: a change of the totals, one of the option sums, two questions of a commodity"
    )?;
    for (commodities, contracts) in SETS {
        let set = set_of(rt.alloc(), commodities, contracts)?;
        report_costs(rt, rt.alloc(), &set)?;
    }
    Ok(())
}
