//! Changes of month deltas and of commodities' numbers, in turn.

ghost use Rattle.std.specs.Prelude.{◌+ℤ◌, ◌*◌, ◌<◌, ◌≤◌, ◌^◌, pos, ◌≤ℤ◌, length, unsigned_abs, IsTrue};
ghost use Rattle.mgn_inter.specs.Credited.{AreCreditsOf};
ghost use Rattle.mgn_inter.specs.Sizes.{IsRisk};
ghost use Rattle.mgn_span.specs.MonthDeltas.{net_delta_by};
ghost use Rattle.mgn_span.specs.Scan.{value_at};
ghost use Rattle.mgn_params.specs.Tables.{month_at};
ghost use Rattle.mgn_tiers.specs.Tiers.{AreTiersOf};
ghost use Rattle.mgn_span.specs.Sizes.{IsDelta};

use mgn_inter::InterCredits;
use mgn_num::{Cents, Quantity, TenThousandths};
use mgn_params::ParamSet;
use mgn_tiers::TierStages;

/// What a month delta and a net delta are at most in size.
const LARGEST_DELTA: u128 = 256_000_000_000_000;

/// Whether the delta of a month and the net delta of its commodity stay within their limit by a change.
pub fn is_within_limits(
    set: &ParamSet,
    tiers: &TierStages,
    month: usize,
    delta: TenThousandths,
) -> bool
    requires of_set { AreTiersOf set.now tiers.now }
    requires month { month < length set.now.months }
    requires delta { unsigned_abs delta ≤ 10 ^ 30 }
    ensures month_delta { IsTrue result → IsDelta (value_at tiers.now.deltas month +ℤ delta) }
    ensures net_delta { IsTrue result → IsDelta (net_delta_by set.now.months tiers.now.deltas (month_at set.now.months month).commodity +ℤ delta) }
{
    set.limits();
    let own = tiers.month_delta(month).plus(delta);
    let net = tiers.net_delta(set.month_at(month).commodity).plus(delta);
    own.size() <= LARGEST_DELTA && net.size() <= LARGEST_DELTA
}

// A quantity of contracts at a scaled delta for each.
fn scaled(quantity: Quantity, delta: &i64) -> TenThousandths
    requires quantity { unsigned_abs quantity ≤ 2 * 10 ^ 7 }
    requires delta { unsigned_abs delta.now ≤ 10 ^ 5 }
    ensures { unsigned_abs result ≤ 2 * 10 ^ 12 }
{
    TenThousandths::product(quantity, *delta)
}

/// What the month delta of a contract changes by with its net.
pub fn delta_of(set: &ParamSet, contract: usize, quantity: Quantity) -> TenThousandths
    requires contract { contract < length set.now.contracts }
    requires quantity { unsigned_abs quantity ≤ 2 * 10 ^ 7 }
    ensures { unsigned_abs result ≤ 2 * 10 ^ 12 }
{
    set.limits();
    scaled(quantity, &set.contract_at(contract).delta)
}

/// Adds to the delta of a month. A change that would take a delta past its limit is not made.
pub fn change(set: &ParamSet, tiers: &mut TierStages, month: usize, delta: TenThousandths)
    requires of_set { AreTiersOf set.now tiers.old }
    requires month { month < length set.now.months }
    requires delta { unsigned_abs delta ≤ 10 ^ 30 }
    ensures { AreTiersOf set.now tiers.new }
{
    if is_within_limits(set, tiers, month, delta) {
        tiers.add(set, month, delta);
    }
}

/// What the commodity of a month is charged, for spreads and for its spot month.
pub fn charges(set: &ParamSet, tiers: &TierStages, month: usize) -> i128
    requires of_set { AreTiersOf set.now tiers.now }
    requires month { month < length set.now.months }
{
    set.limits();
    let commodity = set.month_at(month).commodity;
    let charge = tiers.charge(commodity).amount();
    charge.wrapping_add(tiers.spot(commodity).amount())
}

/// Brings the credits after the net delta of a commodity and a doubled price risk.
pub fn refresh(
    set: &ParamSet,
    tiers: &TierStages,
    credits: &mut InterCredits,
    g: usize,
    price_risk2: Cents,
)
    requires tiers { AreTiersOf set.now tiers.now }
    requires credits { AreCreditsOf set.now credits.old }
    requires commodity { g < length set.now.commodities }
    requires not_negative { pos 0 ≤ℤ price_risk2 }
    requires risk { IsRisk (unsigned_abs price_risk2) }
    ensures { AreCreditsOf set.now credits.new }
{
    credits.refresh(set, g, tiers.net_delta(g), price_risk2);
}
