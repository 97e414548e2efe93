//! The rows of a set: one for each month, or one for each commodity.

ghost use Rattle.std.specs.Prelude.{◌≡◌, ◌+◌, ◌-◌, ◌<◌, ◌≤◌, length};
ghost use Rattle.mgn_span.specs.Sizes.{IsStart};
ghost use Rattle.mgn_tiers.specs.Tiers.{HasRoom, moved, run_of};

use crate::run::StageRun;
use mgn_params::{Month, ParamSet};
use mgn_span::Delta;

// What a leg starts with once a share of it is replaced by another.
fn replaced(start: u64, old: u64, new: u64) -> u64
    requires share { old ≤ start }
    requires small { IsStart (start - old + new) }
    ensures { result ≡ start - old + new }
{
    start - old + new
}

// Takes the delta of a month from the starts of its tier's legs, and puts another in its place.
pub(crate) fn move_delta(run: &mut StageRun, set: &ParamSet, month: &Month, old: Delta, new: Delta)
    requires month { month.now.commodity < length set.now.commodities }
    requires room { HasRoom run.old month.now.tier old new }
    requires formed { run.old ≡ run_of set.now month.now.commodity run.old.starts }
    ensures { run.new ≡ moved set.now month.now run.old old new }
{
    set.limits();
    let tier = month.tier;
    let long = replaced(run.start(tier), old.long_part(), new.long_part());
    let short = replaced(run.start(8 + tier), old.short_part(), new.short_part());
    let spreads = set.spreads_in(month.commodity);
    run.change_tier(tier, long, short, spreads, set.spot_in(month.commodity));
}
