ghost use Rattle.std.specs.Prelude.{◌<◌, ◌≤◌, length};
ghost use Rattle.mgn_inter.specs.Credited.{AreCreditsOf};
ghost use Rattle.mgn_tiers.specs.Tiers.{AreTiersOf};

use crate::runs::refresh;
use mgn_inter::InterCredits;
use mgn_num::Cents;
use mgn_params::ParamSet;
use mgn_tiers::TierStages;
use std::io;
use std::rt::Clock;
use std::time::Instant;

/// The nanoseconds of so many refreshes of the first commodities in turn, each with its question, and what the answers
/// come to.
pub fn measure(
    clock: &impl Clock,
    set: &ParamSet,
    tiers: &TierStages,
    credits: &mut InterCredits,
    commodities: usize,
    refreshes: usize,
) -> io::Result<(u128, i128)>
    requires tiers { AreTiersOf set.now tiers.now }
    requires credits { AreCreditsOf set.now credits.old }
    requires some { 0 < commodities }
    requires within { commodities ≤ length set.now.commodities }
    ensures { AreCreditsOf set.now credits.new }
{
    let mut answers: i128 = 0;
    let start = Instant::now(clock)?;
    for k in 0..refreshes {
        let g = k % commodities;
        let risk = Cents::new(600 + 2 * (k % 64) as i128);
        refresh(set, tiers, credits, g, risk);
        answers = answers.wrapping_add(credits.credit(g).amount());
    }
    Ok((start.elapsed(clock)?.as_nanos(), answers))
}
