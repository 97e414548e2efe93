//! What the calls cost that follow a change, and the calculation recomputed from scratch.

ghost use Rattle.std.specs.Prelude.{◌≡◌, length, All};
ghost use Rattle.mgn_span.specs.Positions.{IsNet};
ghost use Rattle.mgn_tiers.specs.Tiers.{AreTiersOf};

use crate::nets::mixed_nets;
use crate::tier_run::open_all;
use crate::{credit_run, plain_run, tier_run};
use anyhow::{Result, bail};
use mgn_inter::InterCredits;
use mgn_nets::Nets;
use mgn_num::Quantity;
use mgn_params::ParamSet;
use mgn_tiers::TierStages;
use std::alloc::Global;
use std::rt::Clock;

/// As many changes of each kind are made in a pass, or a few more.
const CHANGES: usize = 131_072;

/// As many requirements are recomputed from scratch in a pass.
const ANEW: usize = 16;

/// As many passes are made. The quickest counts, as others on the machine slow some of them.
const PASSES: usize = 8;

/// Picoseconds of a change and its two questions, of a refresh and its question and of a requirement recomputed from scratch, and
/// what all answers come to.
#[derive(Clone, Copy)]
pub struct Costs {
    pub change: u128,
    pub refresh: u128,
    pub anew: u128,
    pub answers: i128,
}

// The nanoseconds of the quickest pass so far, and what all answers come to.
#[derive(Clone, Copy)]
struct Quickest {
    nanoseconds: u128,
    answers: i128,
}

impl Quickest {
    const NO_PASS: Quickest = Quickest {
        nanoseconds: u128::MAX,
        answers: 0,
    };

    fn and(self, pass: (u128, i128)) -> Quickest {
        Quickest {
            nanoseconds: self.nanoseconds.min(pass.0),
            answers: self.answers.wrapping_add(pass.1),
        }
    }

    // What one of so many calls took, in picoseconds.
    fn each(self, calls: usize) -> u128 {
        self.nanoseconds.saturating_mul(1_000) / calls.max(1) as u128
    }
}

// Measures changes. The rounds of a pass are even in number and so leave the month deltas as they were.
fn measure_changes(
    clock: &impl Clock,
    set: &ParamSet,
    nets: &[Quantity],
    tiers: &mut TierStages,
) -> Result<(u128, i128)>
    requires one_each { length nets.now ≡ length set.now.contracts }
    requires nets { All IsNet nets.now }
    requires tiers { AreTiersOf set.now tiers.old }
    ensures { AreTiersOf set.now tiers.new }
{
    let count = set.contract_count().max(1);
    let rounds = 2 * (CHANGES / 2 / count + 1);
    open_all(set, nets, tiers);
    let mut quickest = Quickest::NO_PASS;
    for _pass in 0..PASSES {
        quickest = quickest.and(tier_run::measure(clock, set, nets, tiers, rounds)?);
    }
    Ok((
        quickest.each(rounds.saturating_mul(count)),
        quickest.answers,
    ))
}

// Measures refreshes of the commodities that have spreads with others; of all where none has.
fn measure_refreshes(
    clock: &impl Clock,
    alloc: Global,
    set: &ParamSet,
    tiers: &TierStages,
) -> Result<(u128, i128)>
    requires { AreTiersOf set.now tiers.now }
{
    let all = set.commodity_count();
    let named = match set.credits().len() {
        0 => all,
        spreads => all.min(spreads + 1),
    };
    if named == 0 {
        bail!("the set has no commodity");
    }
    let mut credits = InterCredits::new(alloc, set)?;
    let mut quickest = Quickest::NO_PASS;
    for _pass in 0..PASSES {
        let pass = credit_run::measure(clock, set, tiers, &mut credits, named, CHANGES)?;
        quickest = quickest.and(pass);
    }
    Ok((quickest.each(CHANGES), quickest.answers))
}

// Measures the whole calculation.
fn measure_anew(
    clock: &impl Clock,
    alloc: Global,
    set: &ParamSet,
    nets: &[Quantity],
) -> Result<(u128, i128)>
    requires one_each { length nets.now ≡ length set.now.contracts }
    requires nets { All IsNet nets.now }
{
    set.limits();
    let nets = Nets::of(alloc, nets)?;
    let mut quickest = Quickest::NO_PASS;
    for _pass in 0..PASSES {
        quickest = quickest.and(plain_run::measure(clock, alloc, set, &nets, ANEW)?);
    }
    Ok((quickest.each(ANEW), quickest.answers))
}

/// Measures all three on the same nets.
pub fn measure(clock: &impl Clock, alloc: Global, set: &ParamSet) -> Result<Costs> {
    let nets = mixed_nets(alloc, set)?;
    let mut tiers = TierStages::new(alloc, set)?;
    let (change, first) = measure_changes(clock, set, &nets, &mut tiers)?;
    let (refresh, second) = measure_refreshes(clock, alloc, set, &tiers)?;
    let (anew, third) = measure_anew(clock, alloc, set, &nets)?;
    Ok(Costs {
        change,
        refresh,
        anew,
        answers: first.wrapping_add(second).wrapping_add(third),
    })
}
