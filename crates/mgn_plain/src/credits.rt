ghost use Rattle.std.specs.Prelude.{◌≡◌, ℕ, ◌+◌, ◌*◌, ◌≤◌, ◌^◌, length, All, slice_index, replicate};
ghost use Rattle.mgn_params.specs.Limits.{IsCreditSpread};
ghost use Rattle.mgn_span.specs.Credits.{credits_after, credits_of, formed};
ghost use Rattle.mgn_span.specs.Words.{AreNumbers, AreRests, IsCreditable};

use mgn_params::{CreditSpread, Leg};
use mgn_span::Delta;
use mgn_span::legs::{amount_of_legs, credits_of_legs, spread_forms, use_rests};

// Credits each leg of a formed spread.
fn credit_legs(
    deltas: &[Delta],
    risks: &[u64],
    rate: &u64,
    amount: &u64,
    credits: &mut [u128],
    legs: &[Leg],
)
    requires legs { All (IsCreditable deltas.now risks.now amount.now) legs.now }
    requires few { length legs.now ≤ 4 }
    requires rate { rate.now ≤ 10000 }
    requires one_each { length credits.old ≡ length deltas.now }
    requires room { (g : ℕ) → slice_index credits.old g ≤ 10 ^ 36 }
    ensures credits { credits.new ≡ credits_after deltas.now risks.now rate.now amount.now credits.old legs.now }
    ensures one_each { length credits.new ≡ length credits.old }
    ensures small { (g : ℕ) → slice_index credits.new g ≤ slice_index credits.old g + 4 * 10 ^ 33 }
{
    let gained = credits_of_legs(deltas, risks, rate, amount, legs);
    for k in 0..legs.len() {
        credits[legs[k].commodity] += u128::from(gained[k]);
    }
}

// Forms a spread, if it can be.
fn form_spread(
    deltas: &[Delta],
    risks: &[u64],
    rests: &mut [Delta],
    credits: &mut [u128],
    spread: &CreditSpread,
)
    requires spread { IsCreditSpread (length deltas.now) spread.now }
    requires numbers { AreNumbers deltas.now risks.now }
    requires credit_each { length credits.old ≡ length deltas.now }
    requires rests { AreRests deltas.now rests.old }
    requires room { (g : ℕ) → slice_index credits.old g ≤ 10 ^ 36 }
    ensures formed { (rests.new, credits.new) ≡ formed deltas.now risks.now (rests.old, credits.old) spread.now }
    ensures rests { AreRests deltas.now rests.new }
    ensures credit_each { length credits.new ≡ length credits.old }
    ensures small { (g : ℕ) → slice_index credits.new g ≤ slice_index credits.old g + 4 * 10 ^ 33 }
{
    let legs = &spread.legs[..spread.count];
    if spread_forms(rests, legs) {
        let amount = amount_of_legs(rests, legs);
        credit_legs(deltas, risks, &spread.rate, &amount, credits, legs);
        use_rests(rests, &amount, legs);
    }
}

// Forms the intercommodity spreads in file order, each of the rests that the earlier ones left, and adds up what they
// credit to each commodity.
pub(crate) fn add_credits(
    deltas: &[Delta],
    risks: &[u64],
    rests: &mut [Delta],
    credits: &mut [u128],
    spreads: &[CreditSpread],
)
    requires spreads { All (IsCreditSpread (length deltas.now)) spreads.now }
    requires few { length spreads.now ≤ 64 }
    requires numbers { AreNumbers deltas.now risks.now }
    requires rests { rests.old ≡ deltas.now }
    requires credits { credits.old ≡ replicate (length deltas.now) 0 }
    ensures credits { credits.new ≡ credits_of deltas.now risks.now spreads.now }
    ensures one_each { length credits.new ≡ length deltas.now }
    ensures small { (g : ℕ) → slice_index credits.new g ≤ 256 * 10 ^ 33 }
{
    for spread in spreads {
        form_spread(deltas, risks, rests, credits, spread);
    }
}
