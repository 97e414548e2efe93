ghost use Rattle.std.specs.Prelude.{◌≡◌, length, All};
ghost use Rattle.mgn_span.specs.Positions.{IsNet};

use anyhow::Result;
use mgn_nets::Nets;
use mgn_params::{ParamSet, Work};
use mgn_plain::requirement;
use std::alloc::Global;
use std::rt::Clock;
use std::time::Instant;

/// The nanoseconds of so many requirements recomputed from scratch, and a sum of them.
pub fn measure(
    clock: &impl Clock,
    alloc: Global,
    set: &ParamSet,
    nets: &Nets,
    rounds: usize,
) -> Result<(u128, i128)>
    requires one_each { length nets.now ≡ length set.now.contracts }
    requires nets { All IsNet nets.now }
{
    let mut work = Work::new();
    let mut sum: i128 = 0;
    let start = Instant::now(clock)?;
    for _ in 0..rounds {
        sum = sum.wrapping_add(requirement(alloc, set, nets, &mut work)?.amount());
    }
    Ok((start.elapsed(clock)?.as_nanos(), sum))
}
