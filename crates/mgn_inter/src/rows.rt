//! The rows of the commodities while spreads are formed.

ghost use Rattle.std.specs.Prelude.{◌≡◌, ℕ, ℤ, ◌+◌, ◌<◌, ◌≤◌, ◌^◌, ◌==◌, if◌then◌else◌, length, map, All, IsTrue, not, slice_index, List};
ghost use Rattle.std.specs.List.{IsDistinct, list_all};
ghost use Rattle.std.specs.Str.{bytes_eq};
ghost use Rattle.mgn_inter.specs.Columns.{credits_in, deltas_in, KeepsRisks, rests_in, risks_in};
ghost use Rattle.mgn_inter.specs.Gathered.{IsGathered};
ghost use Rattle.mgn_inter.specs.Quiet.{AreAlike, IsMoved};
ghost use Rattle.mgn_inter.specs.Rows.{AreBrought, AreMarked, AreRestsOf, AreWritten, IsKept, moved_at, share_of};
ghost use Rattle.mgn_span.specs.Words.{AreNear, AreNumbers};
ghost use Rattle.mgn_span.specs.Credits.{fits, forms};
ghost use Rattle.mgn_params.specs.Limits.{IsCreditSpread};
ghost use Rattle.mgn_span.specs.Scan.{value_at};
ghost use Rattle.mgn_params.specs.Tables.{legs_of};

use crate::commodity_numbers::CommodityNumbers;
use crate::gathered::Gathered;
use crate::numbers::{move_credit, numbers_at, write_rest};
use crate::spread_state::SpreadState;
use mgn_params::{CreditSpread, Leg, LegSide};
use mgn_rows::SparseRows;
use mgn_span::Delta;
use mgn_span::legs::{amount_of_legs, credits_of_legs, rest_fits, use_rests};

// The rest of a commodity at a spread's turn: that of its row if it has moved, else the one that is kept.
fn rest_at_turn(
    moved: &[bool],
    numbers: &SparseRows<CommodityNumbers>,
    g: usize,
    kept: Delta,
) -> Delta
    requires mark { g < length moved.now }
    requires rest { g < length numbers.now }
    ensures { result ≡ (if moved_at moved.now g then value_at (rests_in numbers.now) g else kept) }
{
    if moved[g] {
        numbers_at(numbers, g).rest
    } else {
        kept
    }
}

/// Brings what is kept of the legs' rests before a spread to those at its turn.
pub(crate) fn bring_rests(
    moved: &[bool],
    numbers: &SparseRows<CommodityNumbers>,
    legs: &[Leg],
    kept: &mut [Delta; 4],
)
    requires few { length legs.now ≤ 4 }
    requires marks { All (λ leg. leg.commodity < length moved.now) legs.now }
    requires legs { All (λ leg. leg.commodity < length numbers.now) legs.now }
    ensures long { length kept.new ≡ 4 }
    ensures rests { AreBrought moved.now (rests_in numbers.now) legs.now kept.old kept.new }
{
    for k in 0..legs.len() {
        kept[k] = rest_at_turn(moved, numbers, legs[k].commodity, kept[k]);
    }
}

// What a spread is formed of.
fn gather(numbers: &SparseRows<CommodityNumbers>, spread: &CreditSpread) -> Gathered
    requires few { spread.now.count ≤ 4 }
    requires legs { All (λ leg. leg.commodity < length numbers.now) (legs_of spread.now) }
    ensures { IsGathered (deltas_in numbers.now) (risks_in numbers.now) spread.now result }
{
    let mut legs = spread.legs;
    let mut deltas = [Delta::ZERO; 4];
    let mut risks = [0; 4];
    for k in 0..spread.count {
        let row = numbers_at(numbers, spread.legs[k].commodity);
        legs[k].commodity = k;
        deltas[k] = row.delta;
        risks[k] = row.risk;
    }
    Gathered {
        legs,
        deltas,
        risks,
    }
}

/// Forms a spread, if it can be: takes what it uses off its legs' rests, and tells what its legs are credited.
pub(crate) fn form_spread(
    numbers: &SparseRows<CommodityNumbers>,
    rests: &mut [Delta; 4],
    spread: &CreditSpread,
) -> [u64; 4]
    requires spread { IsCreditSpread (length numbers.now) spread.now }
    requires numbers { AreNumbers (deltas_in numbers.now) (risks_in numbers.now) }
    requires near { (all : List ℤ) × AreRestsOf (legs_of spread.now) all rests.old
        × AreNear (deltas_in numbers.now) all (legs_of spread.now) }
    ensures { (all : List ℤ) → length all ≡ length numbers.now → AreRestsOf (legs_of spread.now) all rests.old →
        IsKept (deltas_in numbers.now) (risks_in numbers.now) all spread.now (record { rests = rests.old; after = rests.new; credits = result }) }
{
    if !kept_forms(rests, &spread.legs[..spread.count]) {
        return [0; 4];
    }
    let own = gather(numbers, spread);
    let legs = &own.legs[..spread.count];
    let amount = amount_of_legs(rests, legs);
    let credits = credits_of_legs(&own.deltas, &own.risks, &spread.rate, &amount, legs);
    use_rests(rests, &amount, legs);
    credits
}

// Takes the legs' old credits off, and adds the new ones.
fn move_credits(
    numbers: &mut SparseRows<CommodityNumbers>,
    legs: &[Leg],
    old: &[u64; 4],
    new: &[u64; 4],
)
    requires few { length legs.now ≤ 4 }
    requires legs { All (λ leg. leg.commodity < length numbers.old) legs.now }
    requires old { (g : ℕ) → share_of g legs.now old.now ≤ slice_index (credits_in numbers.old) g }
    requires new { (g : ℕ) → share_of g legs.now new.now ≤ 10 ^ 36 }
    requires room { (g : ℕ) → slice_index (credits_in numbers.old) g ≤ 10 ^ 36 }
    ensures long { length numbers.new ≡ length numbers.old }
    ensures numbers { KeepsRisks numbers.old numbers.new }
    ensures rests { rests_in numbers.new ≡ rests_in numbers.old }
    ensures moved { (g : ℕ) → slice_index (credits_in numbers.new) g + share_of g legs.now old.now ≡
        slice_index (credits_in numbers.old) g + share_of g legs.now new.now }
{
    for k in 0..legs.len() {
        move_credit(numbers, legs[k].commodity, old[k], new[k]);
    }
}

/// Brings the legs' credits, and what is kept of them, after new ones, and tells whether these are something else.
pub(crate) fn change_credits(
    numbers: &mut SparseRows<CommodityNumbers>,
    legs: &[Leg],
    kept: &mut [u64; 4],
    new: &[u64; 4],
) -> bool
    requires few { length legs.now ≤ 4 }
    requires legs { All (λ leg. leg.commodity < length numbers.old) legs.now }
    requires old { (g : ℕ) → share_of g legs.now kept.old ≤ slice_index (credits_in numbers.old) g }
    requires new { (g : ℕ) → share_of g legs.now new.now ≤ 10 ^ 36 }
    requires room { (g : ℕ) → slice_index (credits_in numbers.old) g ≤ 10 ^ 36 }
    ensures long { length numbers.new ≡ length numbers.old }
    ensures numbers { KeepsRisks numbers.old numbers.new }
    ensures rests { rests_in numbers.new ≡ rests_in numbers.old }
    ensures moved { (g : ℕ) → slice_index (credits_in numbers.new) g + share_of g legs.now kept.old ≡
        slice_index (credits_in numbers.old) g + share_of g legs.now new.now }
    ensures kept { kept.new ≡ new.now }
    ensures told { result ≡ not (bytes_eq kept.old new.now) }
{
    if *kept == *new {
        return false;
    }
    move_credits(numbers, legs, kept, new);
    *kept = *new;
    true
}

/// Marks the legs' commodities whose rests behind a spread are not those that were, and takes the marks off the others.
pub(crate) fn mark_moved(moved: &mut [bool], legs: &[Leg], old: &[Delta; 4], new: &[Delta; 4])
    requires few { length legs.now ≤ 4 }
    requires marks { All (λ leg. leg.commodity < length moved.old) legs.now }
    requires apart { IsDistinct (λ g h. g == h) (map (λ leg. leg.commodity) legs.now) }
    ensures { AreMarked moved.old legs.now old.now new.now moved.new }
{
    for k in 0..legs.len() {
        moved[legs[k].commodity] = new[k].differs(old[k]);
    }
}

/// Gives the legs' commodities that are marked their rests. The rows of the others are not touched.
pub(crate) fn write_rests(
    numbers: &mut SparseRows<CommodityNumbers>,
    moved: &[bool],
    legs: &[Leg],
    rests: &[Delta; 4],
)
    requires few { length legs.now ≤ 4 }
    requires marks { All (λ leg. leg.commodity < length moved.now) legs.now }
    requires legs { All (λ leg. leg.commodity < length numbers.old) legs.now }
    requires apart { IsDistinct (λ g h. g == h) (map (λ leg. leg.commodity) legs.now) }
    ensures long { length numbers.new ≡ length numbers.old }
    ensures numbers { KeepsRisks numbers.old numbers.new }
    ensures credits { credits_in numbers.new ≡ credits_in numbers.old }
    ensures rests { AreWritten moved.now (rests_in numbers.old) legs.now rests.now (rests_in numbers.new) }
{
    for k in 0..legs.len() {
        let commodity = legs[k].commodity;
        if moved[commodity] {
            write_rest(numbers, commodity, rests[k]);
        }
    }
}

// Whether the rests that are kept of legs all have the legs' directions, where side A is long or not.
fn all_kept_fit(a_long: bool, kept: &[Delta; 4], legs: &[Leg]) -> bool
    requires few { length legs.now ≤ 4 }
    ensures { (rests : List ℤ) → AreRestsOf legs.now rests kept.now → result ≡ list_all (fits a_long rests) legs.now }
{
    for k in 0..legs.len() {
        if !rest_fits(a_long, kept[k], legs[k].side) {
            return false;
        }
    }
    true
}

/// Whether a spread forms of the rests that are kept of its legs.
pub(crate) fn kept_forms(kept: &[Delta; 4], legs: &[Leg]) -> bool
    requires few { length legs.now ≤ 4 }
    ensures { (rests : List ℤ) → AreRestsOf legs.now rests kept.now → result ≡ forms rests legs.now }
{
    all_kept_fit(true, kept, legs) || all_kept_fit(false, kept, legs)
}

/// Gives the legs of a commodity another rest, before the spread and after it, in what is kept of a spread.
pub(crate) fn move_rest(kept: &mut SpreadState, legs: &[Leg], g: usize, rest: Delta)
    requires few { length legs.now ≤ 4 }
    ensures { IsMoved g rest legs.now kept.old kept.new }
{
    for k in 0..legs.len() {
        if legs[k].commodity == g {
            kept.rests[k] = rest;
            kept.after[k] = rest;
        }
    }
}

/// Whether two rests have the same directions: both are above 0, or below 0, or neither.
pub(crate) fn have_same_sign(a: Delta, b: Delta) -> bool
    ensures { IsTrue result → AreAlike a b }
{
    rest_fits(true, a, LegSide::A) == rest_fits(true, b, LegSide::A)
        && rest_fits(false, a, LegSide::A) == rest_fits(false, b, LegSide::A)
}
