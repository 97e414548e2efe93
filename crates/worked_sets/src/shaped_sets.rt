//! Files of sets of all sizes.

ghost use Rattle.std.specs.Prelude.{◌<◌, ◌≤◌, IsTrue};

use std::alloc::{AllocError, Global};

/// What a set is made of: commodities; months, contracts and spreads in each of them; spreads between commodities.
#[derive(Clone, Copy)]
pub struct Shape {
    pub commodities: usize,
    pub months: usize,
    pub contracts: usize,
    pub spreads: usize,
    pub credits: usize,
}

impl Shape {
    /// Whether each commodity has a month, and nothing is more than a commodity or a set may have.
    pub fn is_within_limits(self) -> bool
        ensures some { IsTrue result → 0 < self.months }
        ensures months { IsTrue result → self.months ≤ 64 }
        ensures contracts { IsTrue result → self.contracts ≤ 256 }
        ensures spreads { IsTrue result → self.spreads ≤ 32 }
        ensures credits { IsTrue result → self.credits ≤ 64 }
    {
        let has_months = 0 < self.months && self.months <= 64;
        has_months && self.contracts <= 256 && self.spreads <= 32 && self.credits <= 64
    }
}

// The months of a commodity in four tiers, in turn.
fn push_months(out: &mut String, g: usize, months: usize) -> Result<(), AllocError>
    requires { months ≤ 64 }
{
    for m in 0..months {
        let month = m + 1;
        let tier = m % 4 + 1;
        write!(out, "M,G{g},{month},{tier}\n")?;
    }
    Ok(())
}

// The futures of a commodity, in its months in turn.
fn push_contracts(
    out: &mut String,
    g: usize,
    months: usize,
    contracts: usize,
) -> Result<(), AllocError>
    requires some { 0 < months }
    requires months { months ≤ 64 }
    requires contracts { contracts ≤ 256 }
{
    for k in 0..contracts {
        let month = k % months + 1;
        let delta = 10_000 + 100 * month;
        write!(out, "K,G{g}X{k},G{g},{month},F,F,{delta},0")?;
        push_array(out, month)?;
    }
    Ok(())
}

// An array that gains by a rise, more with a later month.
fn push_array(out: &mut String, month: usize) -> Result<(), AllocError>
    requires { month ≤ 64 }
{
    let third = 90 + month;
    let (two, all) = (2 * third, 3 * third);
    write!(
        out,
        ",0,0,-{third},-{third},{third},{third},-{two},-{two},{two},{two}"
    )?;
    write!(out, ",-{all},-{all},{all},{all},-{two},{two}\n")
}

// The spreads of a commodity, between tiers in turn, with ratios and charges of their own.
fn push_spreads(out: &mut String, g: usize, spreads: usize) -> Result<(), AllocError>
    requires { spreads ≤ 32 }
{
    for k in 0..spreads {
        let (one, two) = (k % 4 + 1, (k / 4 + k + 1) % 4 + 1);
        let (ratio, other) = (10_000 + 700 * k, 10_000 + 1_300 * (k % 3));
        let charge = 40 + k;
        write!(out, "S,G{g},{one},{ratio},{two},{other},{charge}\n")?;
    }
    write!(out, "T,G{g},1,30,50\n")
}

// Spreads of each commodity with the next, from the first one on.
fn push_credits(out: &mut String, credits: usize) -> Result<(), AllocError>
    requires { credits ≤ 64 }
{
    for g in 0..credits {
        let next = g + 1;
        let ratio = 10_000 + 900 * g;
        write!(out, "I,5000,G{g},A,{ratio},G{next},B,20000\n")?;
    }
    Ok(())
}

/// The file of a set of a shape, with a spot month charge on the first tier of each commodity. It is a set where there
/// are no more than 4,096 contracts, and fewer spreads between commodities than commodities.
pub fn shaped(alloc: Global, shape: Shape) -> Result<String, AllocError>
    requires some { 0 < shape.months }
    requires months { shape.months ≤ 64 }
    requires contracts { shape.contracts ≤ 256 }
    requires spreads { shape.spreads ≤ 32 }
    requires credits { shape.credits ≤ 64 }
{
    let mut out = String::new(alloc);
    out.push_str("H,2,RUN\n")?;
    for g in 0..shape.commodities {
        write!(&mut out, "G,G{g},25\n")?;
    }
    for g in 0..shape.commodities {
        push_months(&mut out, g, shape.months)?;
        push_contracts(&mut out, g, shape.months, shape.contracts)?;
        push_spreads(&mut out, g, shape.spreads)?;
    }
    push_credits(&mut out, shape.credits)?;
    Ok(out)
}
