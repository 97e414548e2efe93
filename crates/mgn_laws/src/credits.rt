//! Intercommodity spreads, over all of them in file order.

ghost use Rattle.std.specs.Prelude.{◌≡◌, ◌+◌, ◌<◌, ◌≤◌, length, unsigned_abs};
ghost use Rattle.mgn_laws.specs.Uses.{credit_at, credit_use_at, rests_at};
ghost use Rattle.mgn_num.specs.Signed.{sum_below};
ghost use Rattle.mgn_span.specs.Words.{net_delta};
ghost use Rattle.mgn_span.specs.Positions.{positions};
ghost use Rattle.mgn_span.specs.Requirement.{credit};
ghost use Rattle.mgn_span.specs.Scan.{value_at};

use mgn_params::ParamSet;

/// The rest of a commodity when a spread's turn comes is, in size, its net delta less what all earlier spreads used
/// of it.
pub fn rests_leave_net_delta_less_earlier_uses(
    set: &ParamSet,
    nets: &[i64],
    commodity: usize,
    spread: usize,
)
    requires { commodity < length set.now.commodities }
    ensures { let portfolio = positions set.now.contracts nets.now in
        unsigned_abs (value_at (rests_at set.now portfolio spread) commodity) + sum_below (credit_use_at set.now portfolio commodity) spread
        ≡ unsigned_abs (net_delta set.now.months portfolio commodity) }
{
    set.limits();
}

/// All intercommodity spreads together never use more of a commodity than its net delta in size.
pub fn credit_uses_within_net_delta(set: &ParamSet, nets: &[i64], commodity: usize)
    requires { commodity < length set.now.commodities }
    ensures { let portfolio = positions set.now.contracts nets.now in
        sum_below (credit_use_at set.now portfolio commodity) (length set.now.credits)
        ≤ unsigned_abs (net_delta set.now.months portfolio commodity) }
{
    set.limits();
}

/// The credit of a commodity is the sum of what each spread credits to it in its turn.
pub fn credits_spread_by_spread(set: &ParamSet, nets: &[i64], commodity: usize)
    requires { commodity < length set.now.commodities }
    ensures { let portfolio = positions set.now.contracts nets.now in
        credit set.now portfolio commodity ≡ sum_below (credit_at set.now portfolio commodity) (length set.now.credits) }
{}
