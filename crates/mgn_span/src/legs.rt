//! The legs of one spread between commodities.

ghost use Rattle.std.specs.Prelude.{◌≡◌, ℕ, ◌*◌, ◌<◌, ◌≤◌, ◌^◌, length, All, slice_index};
ghost use Rattle.std.specs.List.{list_all};
ghost use Rattle.mgn_span.specs.Credits.{fits, forms, is_long, leg_amount, leg_credit, rest_fits, rests_after, spread_amount};
ghost use Rattle.mgn_span.specs.Stages.{used};
ghost use Rattle.mgn_span.specs.Words.{IsCreditable, leg_at};

use crate::delta::{Delta, delta_at};
use mgn_params::{Leg, LegSide};

// Below these 64 bits hold their product, which saves the long division of 128 bits. Nearly all numbers are.
const SHORT_PART: u64 = 10_000_000_000;

const SHORT_RISK: u64 = 1_000_000_000;

fn is_long_leg(a_long: bool, side: LegSide) -> bool
    ensures { result ≡ is_long a_long side }
{
    match side {
        LegSide::A => a_long,
        LegSide::B => !a_long,
    }
}

/// Whether a rest has the direction of a leg of a side, where side A is long or not.
pub fn rest_fits(a_long: bool, rest: Delta, side: LegSide) -> bool
    ensures { result ≡ rest_fits a_long rest side }
{
    if is_long_leg(a_long, side) {
        rest.is_positive()
    } else {
        rest.is_negative()
    }
}

// Whether the rest of a leg's commodity has the leg's direction.
fn leg_fits(a_long: bool, rests: &[Delta], leg: &Leg) -> bool
    requires { leg.now.commodity < length rests.now }
    ensures { result ≡ fits a_long rests.now leg.now }
{
    rest_fits(a_long, delta_at(rests, leg.commodity), leg.side)
}

fn all_fit(a_long: bool, rests: &[Delta], legs: &[Leg]) -> bool
    requires { All (λ leg. leg.commodity < length rests.now) legs.now }
    ensures { result ≡ list_all (fits a_long rests.now) legs.now }
{
    legs.iter().all(|leg| leg_fits(a_long, rests, leg))
}

/// Whether a spread forms: all legs of side A of one sign, and all of side B of the other.
pub fn spread_forms(rests: &[Delta], legs: &[Leg]) -> bool
    requires { All (λ leg. leg.commodity < length rests.now) legs.now }
    ensures { result ≡ forms rests.now legs.now }
{
    all_fit(true, rests, legs) || all_fit(false, rests, legs)
}

// How many spreads a leg alone would form, in ten-thousandths.
fn amount_of_leg(rests: &[Delta], leg: &Leg) -> u64
    requires commodity { leg.now.commodity < length rests.now }
    requires ratio { 0 < leg.now.ratio }
    ensures amount { result ≡ leg_amount rests.now leg.now }
    ensures small { result ≤ 256 * 10 ^ 16 }
{
    10000 * delta_at(rests, leg.commodity).size() / leg.ratio
}

/// How many spreads the legs form together, in ten-thousandths: the least of what each alone would.
#[tactic(auto, using(std::proofs::lemmas::List::Sums::fold_more))]
pub fn amount_of_legs(rests: &[Delta], legs: &[Leg]) -> u64
    requires legs { All (λ leg. leg.commodity < length rests.now) legs.now }
    requires ratios { All (λ leg. 0 < leg.ratio) legs.now }
    ensures { result ≡ spread_amount rests.now legs.now }
{
    let [first, others @ ..] = legs else {
        return 0;
    };
    let mut least = amount_of_leg(rests, first);
    for other in others {
        least = least.min(amount_of_leg(rests, other));
    }
    least
}

// What a leg uses for an amount of spreads.
fn used_of(amount: &u64, leg: &Leg) -> u64
    requires { amount.now * leg.now.ratio ≤ 256 * 10 ^ 16 }
    ensures { result ≡ used amount.now leg.now.ratio }
{
    *amount * leg.ratio / 10000
}

/// Takes the legs' uses off the rests.
pub fn use_rests(rests: &mut [Delta], amount: &u64, legs: &[Leg])
    requires legs { All (λ leg. leg.commodity < length rests.old) legs.now }
    requires products { All (λ leg. amount.now * leg.ratio ≤ 256 * 10 ^ 16) legs.now }
    ensures { rests.new ≡ rests_after rests.old amount.now legs.now }
{
    for leg in legs {
        let rest = delta_at(rests, leg.commodity);
        rests[leg.commodity] = rest.nearer_zero(used_of(amount, leg));
    }
}

// A leg's credit: the part of its commodity's doubled price risk that its use is of the net delta, at half the rate.
#[tactic(auto, using(crate::proofs::CreditLemmas::leg_credit_tight))]
fn credit_of_leg(deltas: &[Delta], risks: &[u64], rate: &u64, amount: &u64, leg: &Leg) -> u64
    requires leg { IsCreditable deltas.now risks.now amount.now leg.now }
    requires rate { rate.now ≤ 10000 }
    ensures credit { result ≡ leg_credit deltas.now risks.now rate.now amount.now leg.now }
    ensures small { result ≤ 55 * 10 ^ 16 }
{
    let delta = delta_at(deltas, leg.commodity).size();
    let part = used_of(amount, leg) * *rate;
    let risk = risks[leg.commodity];
    if part < SHORT_PART && risk < SHORT_RISK {
        return part * risk / (20000 * delta);
    }
    (u128::from(part) * u128::from(risk) / (20000 * u128::from(delta))) as u64
}

/// What each leg of a formed spread is credited, in cents, by its commodity's net delta and doubled price risk.
pub fn credits_of_legs(
    deltas: &[Delta],
    risks: &[u64],
    rate: &u64,
    amount: &u64,
    legs: &[Leg],
) -> [u64; 4]
    requires legs { All (IsCreditable deltas.now risks.now amount.now) legs.now }
    requires few { length legs.now ≤ 4 }
    requires rate { rate.now ≤ 10000 }
    ensures long { length result ≡ 4 }
    ensures credits { (j : ℕ) → j < length legs.now →
        slice_index result j ≡ leg_credit deltas.now risks.now rate.now amount.now (leg_at legs.now j) }
{
    let mut credits = [0; 4];
    for k in 0..legs.len() {
        credits[k] = credit_of_leg(deltas, risks, rate, amount, &legs[k]);
    }
    credits
}
