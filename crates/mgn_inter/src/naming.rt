//! Some spreads of a set, as the bits of a number: bit `i` stands for the spread at place `i`.

ghost use Rattle.std.specs.Prelude.{◌≡◌, ℕ, ◌<◌, ◌≤◌, false, true, length, All};
ghost use Rattle.std.specs.Int.{bit_at};
ghost use Rattle.mgn_inter.specs.Rows.{moved_at, names};
ghost use Rattle.mgn_span.specs.Words.{leg_at};
ghost use Rattle.mgn_params.specs.Tables.{credit_spread_at, legs_of};

use mgn_params::{CreditSpread, Leg, ParamSet};

/// The spread at a place among those of a set.
pub fn spread_at(spreads: &[CreditSpread], i: usize) -> &CreditSpread
    requires { i < length spreads.now }
    ensures { result.now ≡ credit_spread_at spreads.now i }
{
    &spreads[i]
}

/// The first of some places, 64 where there is none.
pub(crate) fn first_place(places: u64) -> usize
    ensures passed { (i : ℕ) → i < result → bit_at places i ≡ 0 }
    ensures here { result < 64 → bit_at places result ≡ 1 }
    ensures few { result ≤ 64 }
{
    places.trailing_zeros() as usize
}

/// The first of some places behind one, a number past all of them where there is none.
pub(crate) fn next_place(places: u64, place: usize) -> usize
    requires { place < 64 }
    ensures behind { place < result }
    ensures passed { (i : ℕ) → place < i → i < result → bit_at places i ≡ 0 }
    ensures here { result < 64 → bit_at places result ≡ 1 }
{
    place + 1 + first_place(places >> place >> 1)
}

// Some places with those of the spreads that name a commodity, if its rest has moved.
fn with_named(places: u64, set: &ParamSet, moved: &[bool], g: usize) -> u64
    requires mark { g < length moved.now }
    requires commodity { g < length set.now.commodities }
    ensures kept { (i : ℕ) → bit_at result i ≡ 0 → bit_at places i ≡ 0 }
    ensures moved { (i : ℕ) → bit_at result i ≡ 0 → moved_at moved.now g ≡ true →
        names g (legs_of (credit_spread_at set.now.credits i)) ≡ false }
{
    if !moved[g] {
        return places;
    }
    places | set.naming(g)
}

/// Adds the spreads that name a leg's commodity whose rest has moved.
pub(crate) fn await_moved(waiting: &mut u64, set: &ParamSet, moved: &[bool], legs: &[Leg])
    requires marks { All (λ leg. leg.commodity < length moved.now) legs.now }
    requires commodities { All (λ leg. leg.commodity < length set.now.commodities) legs.now }
    ensures kept { (i : ℕ) → bit_at waiting.new i ≡ 0 → bit_at waiting.old i ≡ 0 }
    ensures moved { (i j : ℕ) → bit_at waiting.new i ≡ 0 → j < length legs.now →
        let g = (leg_at legs.now j).commodity in
        moved_at moved.now g ≡ true → names g (legs_of (credit_spread_at set.now.credits i)) ≡ false }
{
    for leg in legs {
        *waiting = with_named(*waiting, set, moved, leg.commodity);
    }
}
