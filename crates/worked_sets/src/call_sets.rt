//! Files of sets of calls alone.

ghost use Rattle.std.specs.Prelude.{◌<◌, ◌≤◌};

use std::alloc::{AllocError, Global};

// A call of a commodity, with an array that looks like none beside it.
fn push_call(out: &mut String, commodity: usize, contract: usize) -> Result<(), AllocError>
    requires commodity { commodity < 256 }
    requires contract { contract < 256 }
{
    write!(out, "K,K{commodity}X{contract},G{commodity},1,C,P,5000,60")?;
    for s in 0..16 {
        let value = (commodity * 31 + contract * 37 + s * 101) % 2001;
        let loss = value as i64 - 1_000;
        write!(out, ",{loss}")?;
    }
    write!(out, "\n")
}

/// The file of a set of so many commodities, with one month and so many calls each.
pub fn calls(alloc: Global, commodities: usize, contracts: usize) -> Result<String, AllocError>
    requires commodities { commodities ≤ 256 }
    requires contracts { contracts ≤ 256 }
{
    let mut out = String::new(alloc);
    out.push_str("H,1,RUN\n")?;
    for g in 0..commodities {
        write!(&mut out, "G,G{g},25\nM,G{g},1,1\n")?;
    }
    for g in 0..commodities {
        for k in 0..contracts {
            push_call(&mut out, g, k)?;
        }
    }
    Ok(out)
}
