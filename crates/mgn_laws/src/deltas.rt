//! Deltas of tiers and commodities.

ghost use Rattle.std.specs.Prelude.{◌≡◌, neg_ℤ};
ghost use Rattle.mgn_laws.specs.Negated.{negated};
ghost use Rattle.mgn_span.specs.Words.{long_delta, net_delta, short_delta};
ghost use Rattle.mgn_span.specs.Positions.{positions};

use mgn_params::ParamSet;

/// Where every position is negated, long for short, the long and the short delta of each tier are exchanged.
pub fn negated_positions_swap_deltas(set: &ParamSet, nets: &[i64], commodity: usize, tier: usize)
    ensures long { long_delta set.now.months (positions set.now.contracts (negated nets.now)) commodity tier
        ≡ short_delta set.now.months (positions set.now.contracts nets.now) commodity tier }
    ensures short { short_delta set.now.months (positions set.now.contracts (negated nets.now)) commodity tier
        ≡ long_delta set.now.months (positions set.now.contracts nets.now) commodity tier }
{}

/// And the net delta of each commodity changes its sign.
pub fn negated_positions_negate_net_delta(set: &ParamSet, nets: &[i64], commodity: usize)
    ensures { net_delta set.now.months (positions set.now.contracts (negated nets.now)) commodity
        ≡ neg_ℤ (net_delta set.now.months (positions set.now.contracts nets.now) commodity) }
{}
