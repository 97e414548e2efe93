//! Spreads within a commodity, formed of what its legs start with.

ghost use Rattle.std.specs.Prelude.{◌≡◌, ◌*◌, ◌≤◌, ◌^◌, ℕ, slice_index, IsTrue, ◌↔◌};
ghost use Rattle.std.specs.List.{flat_map};
ghost use Rattle.mgn_params.specs.Limits.{IsSpread};
ghost use Rattle.mgn_span.specs.Sizes.{IsStart};
ghost use Rattle.mgn_span.specs.Stages.{charges_of, left_after, left_by, stages_of_spread};
ghost use Rattle.mgn_span.specs.Words.{AreSpreads, back_of, charge_of, there_of};

use crate::stage::Stage;
use crate::stages::{form_even, form_stage};
use mgn_params::Spread;

// Whether both ratios of a spread are 1.
fn is_even(spread: &Spread) -> bool
    ensures { IsTrue result ↔ ((spread.now.first_ratio ≡ 10000) × (spread.now.second_ratio ≡ 10000)) }
{
    spread.first_ratio == 10000 && spread.second_ratio == 10000
}

// Forms the stage of a spread with its first tier long and its second short. Most legs have nothing left: no stage is
// built of these.
fn form_there(left: &mut [u64; 16], spread: &Spread) -> u128
    requires spread { (commodities : ℕ) × IsSpread commodities spread.now }
    requires left { (k : ℕ) → IsStart (slice_index left.old k) }
    ensures left { left.new ≡ left_after left.old (there_of spread.now) }
    ensures charge { result ≡ charge_of left.old (there_of spread.now) }
    ensures small { result ≤ 2 * 10 ^ 25 }
{
    if left[spread.first_tier] == 0 || left[8 + spread.second_tier] == 0 {
        return 0;
    }
    if is_even(spread) {
        return form_even(
            left,
            spread.first_tier,
            8 + spread.second_tier,
            spread.charge,
        );
    }
    let there = Stage {
        first_leg: spread.first_tier,
        first_ratio: spread.first_ratio,
        second_leg: 8 + spread.second_tier,
        second_ratio: spread.second_ratio,
        charge: spread.charge,
    };
    form_stage(left, &there)
}

// The same the other way round.
fn form_back(left: &mut [u64; 16], spread: &Spread) -> u128
    requires spread { (commodities : ℕ) × IsSpread commodities spread.now }
    requires left { (k : ℕ) → IsStart (slice_index left.old k) }
    ensures left { left.new ≡ left_after left.old (back_of spread.now) }
    ensures charge { result ≡ charge_of left.old (back_of spread.now) }
    ensures small { result ≤ 2 * 10 ^ 25 }
{
    if left[spread.second_tier] == 0 || left[8 + spread.first_tier] == 0 {
        return 0;
    }
    if is_even(spread) {
        return form_even(
            left,
            spread.second_tier,
            8 + spread.first_tier,
            spread.charge,
        );
    }
    let back = Stage {
        first_leg: spread.second_tier,
        first_ratio: spread.second_ratio,
        second_leg: 8 + spread.first_tier,
        second_ratio: spread.first_ratio,
        charge: spread.charge,
    };
    form_stage(left, &back)
}

// Forms the stages of a spread of what the legs have left: the first tier long and the second short, then the other way
// round if they differ. Tells what they charge.
fn form_spread(left: &mut [u64; 16], spread: &Spread) -> u128
    requires spread { (commodities : ℕ) × IsSpread commodities spread.now }
    requires left { (k : ℕ) → IsStart (slice_index left.old k) }
    ensures left { left.new ≡ left_by left.old (stages_of_spread spread.now) }
    ensures charge { result ≡ charges_of left.old (stages_of_spread spread.now) }
    ensures small { result ≤ 4 * 10 ^ 25 }
{
    let charged = form_there(left, spread);
    if spread.first_tier == spread.second_tier {
        return charged;
    }
    charged + form_back(left, spread)
}

/// Forms the stages of spreads in file order, each of what the earlier ones left of the 16 legs, and tells what they
/// charge together in cents.
pub fn form_spreads(left: &mut [u64; 16], spreads: &[Spread]) -> u128
    requires spreads { AreSpreads spreads.now }
    requires left { (k : ℕ) → IsStart (slice_index left.old k) }
    ensures left { left.new ≡ left_by left.old (flat_map stages_of_spread spreads.now) }
    ensures charge { result ≡ charges_of left.old (flat_map stages_of_spread spreads.now) }
    ensures small { result ≤ 2 * 10 ^ 27 }
{
    let mut charged = 0;
    for spread in spreads {
        charged += form_spread(left, spread);
    }
    charged
}
