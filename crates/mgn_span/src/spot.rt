//! The spot month charge.

ghost use Rattle.std.specs.Prelude.{◌≡◌, ◌≤◌, ◌^◌, ℕ, slice_index, IfSome, Some};
ghost use Rattle.mgn_span.specs.Sizes.{IsStart};
ghost use Rattle.mgn_span.specs.Spot.{spot_charge_from};
ghost use Rattle.mgn_span.specs.Words.{IsSpot};

use mgn_num::mul_div_ceil;
use mgn_params::SpotCharge;

// One rate on the delta of the spot tier, long and short, that stages used, another on what they left outright. Most tiers
// start with nothing.
fn charge_by(starts: &[u64; 16], left: &[u64; 16], spot: &SpotCharge) -> u128
    requires spot { IsSpot spot.now }
    requires starts { (k : ℕ) → IsStart (slice_index starts.now k) }
    requires left { (k : ℕ) → slice_index left.now k ≤ slice_index starts.now k }
    ensures charge { result ≡ spot_charge_from starts.now left.now (Some spot.now) }
    ensures small { result ≤ 10 ^ 26 }
{
    let (long, short) = (spot.tier, 8 + spot.tier);
    let started = starts[long] + starts[short];
    if started == 0 {
        return 0;
    }
    let outright = left[long] + left[short];
    let spread = started - outright;
    mul_div_ceil(u128::from(spread), u128::from(spot.spread_rate), 10000)
        + mul_div_ceil(u128::from(outright), u128::from(spot.outright_rate), 10000)
}

/// The spot month charge in cents, 0 where there is none, by what the 16 legs start with and what stages leave of them.
pub fn spot_charge_of(starts: &[u64; 16], left: &[u64; 16], spot: Option<SpotCharge>) -> u128
    requires spot { IfSome spot IsSpot }
    requires starts { (k : ℕ) → IsStart (slice_index starts.now k) }
    requires left { (k : ℕ) → slice_index left.now k ≤ slice_index starts.now k }
    ensures charge { result ≡ spot_charge_from starts.now left.now spot }
    ensures small { result ≤ 10 ^ 26 }
{
    match spot {
        None => 0,
        Some(spot) => charge_by(starts, left, &spot),
    }
}
