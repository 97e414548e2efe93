//! What calls on the lots of an account cost: with 65,536 lots in it, and with 64.

use crate::lots_run::{measure, numbers, template};
use anyhow::Result;
use std::rt::Clock;

/// As many calls of each kind are measured at either size.
const CALLS: usize = 65_536;

const SMALL: usize = 64;

// The cost of a call at both sizes, in picoseconds, and how much of the small one's the large one's is.
fn report(rt: &impl Print, name: &str, large: u128, small: u128) -> Result<()> {
    let calls = CALLS as u128;
    let large_each = large.saturating_mul(1_000) / calls;
    let small_each = small.saturating_mul(1_000) / calls;
    let hundredths = large.saturating_mul(100) / small.max(1);
    println!(rt; "{name}: {large_each} ps, {small_each} ps, {hundredths} %")?;
    Ok(())
}

/// Measures and tells them.
pub(crate) fn run(rt: &(impl AllocGlobal + Clock + Print)) -> Result<()> {
    let numbers = numbers(rt.alloc(), CALLS)?;
    let template = template()?;
    let large = measure(rt, rt.alloc(), &numbers, CALLS, &template)?;
    let small = measure(rt, rt.alloc(), &numbers, SMALL, &template)?;
    println!(rt;
        "a call with {CALLS} lots, with {SMALL} lots, and the first in hundredths of the second:"
    )?;
    report(rt, "add", large.add, small.add)?;
    report(rt, "find", large.find, small.find)?;
    report(rt, "bust", large.bust, small.bust)
}
