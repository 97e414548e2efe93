//! One stage, formed of what its two legs have left.

ghost use Rattle.std.specs.Prelude.{◌≡◌, ◌*◌, ◌/◌, ◌<◌, ◌≤◌, ◌^◌, ℕ, slice_index};
ghost use Rattle.std.specs.Int.{div_ceil};
ghost use Rattle.mgn_span.specs.Sizes.{IsStart};
ghost use Rattle.mgn_span.specs.Stages.{amount_of, IsStage, left_after, used};
ghost use Rattle.mgn_span.specs.Words.{charge_of, even_stage};

use crate::stage::Stage;

// Below these 64 bits hold the products, which saves the long divisions of 128 bits. Nearly all numbers are.
const SHORT_START: u64 = 1_000_000_000_000_000;

const SHORT_AMOUNT: u128 = 10_000_000_000;

// How many spreads a leg alone would form of what it has left, in ten-thousandths. A ratio of 1 needs no division.
fn leg_amount(left: u64, ratio: u64) -> u128
    requires left { IsStart left }
    requires ratio { 0 < ratio }
    ensures amount { result ≡ 10000 * left / ratio }
    ensures small { result ≤ 2 * 10 ^ 20 }
{
    if ratio == 10000 {
        return u128::from(left);
    }
    if left < SHORT_START {
        return u128::from(10000 * left / ratio);
    }
    10000 * u128::from(left) / u128::from(ratio)
}

// How many spreads a stage forms of what its legs have left, in ten-thousandths. Most legs have nothing.
fn stage_amount(left: &[u64; 16], stage: &Stage) -> u128
    requires stage { IsStage stage.now }
    requires left { (k : ℕ) → IsStart (slice_index left.now k) }
    ensures amount { result ≡ amount_of left.now stage.now }
    ensures small { result ≤ 2 * 10 ^ 20 }
{
    let first = left[stage.first_leg];
    let second = left[stage.second_leg];
    if first == 0 || second == 0 {
        return 0;
    }
    leg_amount(first, stage.first_ratio).min(leg_amount(second, stage.second_ratio))
}

// What a leg uses for an amount of spreads.
fn used(amount: u128, ratio: u64) -> u64
    requires amount { amount ≤ 2 * 10 ^ 20 }
    requires ratio { ratio ≤ 10 ^ 6 }
    requires small { IsStart (used amount ratio) }
    ensures { result ≡ used amount ratio }
{
    if ratio == 10000 {
        return amount as u64;
    }
    if amount < SHORT_AMOUNT {
        return amount as u64 * ratio / 10000;
    }
    (amount * u128::from(ratio) / 10000) as u64
}

// What an amount of spreads is charged, by the charge for each.
fn charge(amount: u128, each: u64) -> u128
    requires amount { amount ≤ 2 * 10 ^ 20 }
    requires each { each ≤ 10 ^ 9 }
    ensures charge { result ≡ div_ceil (amount * each) 10000 }
    ensures small { result ≤ 2 * 10 ^ 25 }
{
    if amount < SHORT_AMOUNT {
        return u128::from((amount as u64 * each).div_ceil(10000));
    }
    (amount * u128::from(each)).div_ceil(10000)
}

// What a stage charges. Its legs then have left what it did not use.
pub(crate) fn form_stage(left: &mut [u64; 16], stage: &Stage) -> u128
    requires stage { IsStage stage.now }
    requires left { (k : ℕ) → IsStart (slice_index left.old k) }
    ensures charge { result ≡ charge_of left.old stage.now }
    ensures left { left.new ≡ left_after left.old stage.now }
    ensures small_charge { result ≤ 2 * 10 ^ 25 }
{
    let amount = stage_amount(left, stage);
    if amount == 0 {
        return 0;
    }
    left[stage.first_leg] -= used(amount, stage.first_ratio);
    left[stage.second_leg] -= used(amount, stage.second_ratio);
    charge(amount, stage.charge)
}

// The same of a stage of ratios of 1, which most are: it forms as many spreads as the leg that has less has left.
pub(crate) fn form_even(left: &mut [u64; 16], first: usize, second: usize, each: u64) -> u128
    requires stage { IsStage (even_stage first second each) }
    requires left { (k : ℕ) → IsStart (slice_index left.old k) }
    ensures charge { result ≡ charge_of left.old (even_stage first second each) }
    ensures left { left.new ≡ left_after left.old (even_stage first second each) }
    ensures small_charge { result ≤ 2 * 10 ^ 25 }
{
    let amount = left[first].min(left[second]);
    left[first] -= amount;
    left[second] -= amount;
    charge(u128::from(amount), each)
}
