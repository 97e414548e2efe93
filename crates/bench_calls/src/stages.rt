//! What a change of a month delta costs in the kept stages, and a change of a commodity's numbers in the kept credits, in
//! sets of different sizes and with few and many spreads, and what the whole calculation, recomputed from scratch, costs on
//! the same nets.

use crate::costs::{Costs, measure};
use anyhow::{Result, bail};
use mgn_params::ParamSet;
use mgn_setfile::read_set;
use std::alloc::Global;
use std::rt::Clock;
use worked_sets::{Shape, shaped};

/// The measured sets: commodities; months, contracts and spreads in each; spreads between commodities. First sets that
/// grow, whose changes meet the same stages; then such sets with more months, where stages are formed; then sets with
/// more spreads in commodities, and with more between them.
const SETS: [(usize, usize, usize, usize, usize); 17] = [
    (1, 1, 1, 8, 0),
    (1, 1, 16, 8, 0),
    (1, 1, 256, 8, 0),
    (256, 1, 1, 8, 0),
    (256, 1, 16, 8, 0),
    (1, 4, 16, 8, 0),
    (1, 4, 256, 8, 0),
    (256, 4, 16, 8, 0),
    (64, 12, 12, 1, 15),
    (64, 12, 12, 8, 15),
    (64, 12, 12, 32, 15),
    (2, 12, 12, 8, 1),
    (16, 12, 12, 8, 15),
    (64, 12, 12, 8, 63),
    (256, 12, 12, 8, 1),
    (256, 12, 12, 8, 15),
    (256, 12, 12, 8, 63),
];

fn set_of(alloc: Global, shape: Shape) -> Result<ParamSet> {
    if !shape.is_within_limits() {
        bail!("the set would be too large");
    }
    let file = shaped(alloc, shape)?;
    let Ok(set) = read_set(alloc, file.as_bytes()) else {
        bail!("the set is not read");
    };
    Ok(set)
}

fn report_shape(rt: &impl Print, shape: Shape) -> Result<()> {
    println!(rt;
        "commodities {}: months {}, contracts {}, spreads {}; spreads between: {}",
        shape.commodities, shape.months, shape.contracts, shape.spreads, shape.credits
    )?;
    Ok(())
}

fn report_costs(rt: &impl Print, costs: Costs) -> Result<()> {
    println!(rt;
        "  change {}, refresh {}, anew {} (answers {})",
        costs.change, costs.refresh, costs.anew, costs.answers
    )?;
    Ok(())
}

fn report(rt: &(impl Clock + Print), alloc: Global, shape: Shape) -> Result<()> {
    let set = set_of(alloc, shape)?;
    let costs = measure(rt, alloc, &set)?;
    report_shape(rt, shape)?;
    report_costs(rt, costs)
}

/// Measures and tells them.
pub(crate) fn run(rt: &(impl AllocGlobal + Clock + Print)) -> Result<()> {
    println!(rt;
        "picoseconds: a change of a month delta with two questions, a refresh of a commodity with one, all anew"
    )?;
    for (commodities, months, contracts, spreads, credits) in SETS {
        let shape = Shape {
            commodities,
            months,
            contracts,
            spreads,
            credits,
        };
        report(rt, rt.alloc(), shape)?;
    }
    Ok(())
}
