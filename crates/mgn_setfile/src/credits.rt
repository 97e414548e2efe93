//! The record of a spread between commodities, against the tables so far.

ghost use Rattle.std.specs.Prelude.{◌≡◌, ◌⊎◌, ◌==◌, ◌+◌, ◌*◌, ◌<◌, ◌≤◌, ◌^◌, map, IfErr, IfOk, IfSome, Err, Ok, length, All, []};
ghost use Rattle.std.specs.List.{list_any};
ghost use Rattle.mgn_params.specs.Limits.{IsNextCreditSpread, IsSidedSpread};
ghost use Rattle.mgn_setfile.specs.Records.{IsFoundLeg, commodity_field, credit_from, credit_of, credit_row, has_side_a, has_side_b, kept_legs, leg_from, legs_from, repeat_place};
ghost use Rattle.mgn_params.specs.Tables.{is_side_a, is_side_b, legs_of};

use crate::fault::{Cause, RecordFault};
use crate::fields::{read_commodity_name, read_number, read_side};
use crate::place::Field;
use mgn_params::{CreditSpread, Leg, LegSide, MOST_CREDIT_SPREADS, ParamSet};
use std::alloc::Global;

// A leg as its words say: where its commodity stands, if it is known, its side and its ratio.
type FoundLeg = (Option<usize>, LegSide, u64);

const NO_LEG: Leg = Leg {
    commodity: 0,
    side: LegSide::A,
    ratio: 0,
};

// The field of a leg's commodity, after so many legs.
fn commodity_field(before: usize) -> Field
    requires { before < 4 }
    ensures { result ≡ commodity_field before }
{
    Field::CreditSpread(3 * before + 3)
}

// The leg that comes after so many.
#[tactic(auto, unfolding(crate::specs::Records::leg_from))]
fn read_leg(
    set: &ParamSet,
    before: usize,
    commodity: &[u8],
    side: &[u8],
    ratio: &[u8],
) -> Result<FoundLeg, RecordFault>
    requires { before < 4 }
    ensures value { result ≡ leg_from set.now before commodity.now side.now ratio.now }
    ensures bound { IfOk result (IsFoundLeg (length set.now.commodities)) }
{
    let name = read_commodity_name(commodity_field(before), commodity)?;
    let side = read_side(Field::CreditSpread(3 * before + 4), side)?;
    let ratio = read_number(Field::CreditSpread(3 * before + 5), ratio, 1, 1_000_000)?;
    Ok((set.commodity(name), side, ratio))
}

fn read_legs(alloc: Global, set: &ParamSet, words: &[&[u8]]) -> Result<Vec<FoundLeg>, RecordFault>
    requires { length words.now ≤ 12 }
    ensures ok { IfOk result (λ legs. legs_from set.now 0 (map (λ s. s.now) words.now) ≡ Ok legs.items) }
    ensures err { IfErr result (λ e. (e.cause ≡ Cause.Memory) ⊎ (legs_from set.now 0 (map (λ s. s.now) words.now) ≡ Err e)) }
    ensures bound { IfOk result (λ legs. All (IsFoundLeg (length set.now.commodities)) legs.items) }
    ensures count { IfOk result (λ legs. (3 * length legs.items ≤ length words.now) × (length words.now < 3 * length legs.items + 3)) }
{
    let mut legs = Vec::new(alloc);
    let mut before = 0;
    let mut rest = words;
    while let [commodity, side, ratio, more @ ..] = rest {
        let leg = read_leg(set, before, commodity, side, ratio)?;
        if legs.push(leg).is_err() {
            return Err(RecordFault::whole(Cause::Memory));
        }
        before += 1;
        rest = more;
    }
    Ok(legs)
}

fn is_on_side_a(side: LegSide) -> bool
    ensures { result ≡ is_side_a side }
{
    side == LegSide::A
}

fn is_on_side_b(side: LegSide) -> bool
    ensures { result ≡ is_side_b side }
{
    side == LegSide::B
}

fn has_side_a(legs: &[FoundLeg]) -> bool
    ensures { result ≡ has_side_a legs.now }
{
    legs.iter().any(|leg| is_on_side_a(leg.1))
}

fn has_side_b(legs: &[FoundLeg]) -> bool
    ensures { result ≡ has_side_b legs.now }
{
    legs.iter().any(|leg| is_on_side_b(leg.1))
}

// The legs, where earlier records give each commodity.
fn known_legs(legs: &[FoundLeg]) -> Result<[Leg; 4], RecordFault>
    requires { length legs.now ≤ 4 }
    ensures { result ≡ kept_legs legs.now }
{
    let mut row = [NO_LEG; 4];
    for i in 0..legs.len() {
        let (place, side, ratio) = legs[i];
        let Some(commodity) = place else {
            return Err(RecordFault::at(commodity_field(i), Cause::Unknown));
        };
        row[i] = Leg {
            commodity,
            side,
            ratio,
        };
    }
    Ok(row)
}

// Whether a leg is of a commodity.
fn is_named(legs: &[Leg], commodity: usize) -> bool
    ensures { result ≡ list_any (λ g. commodity == g) (map (λ leg. leg.commodity) legs.now) }
{
    legs.iter()
        .map(|leg| leg.commodity)
        .any(|other| commodity == other)
}

// The place of the first leg whose commodity is that of a leg before it.
fn repeat_place(legs: &[Leg]) -> Option<usize>
    requires { length legs.now ≤ 4 }
    ensures place { result ≡ repeat_place [] (map (λ leg. leg.commodity) legs.now) }
    ensures within { IfSome result (λ i. i < length legs.now) }
{
    for i in 0..legs.len() {
        if is_named(&legs[..i], legs[i].commodity) {
            return Some(i);
        }
    }
    None
}

fn credit_row(set: &ParamSet, spread: &CreditSpread) -> Result<CreditSpread, RecordFault>
    requires { IsSidedSpread (length set.now.commodities) spread.now }
    ensures value { result ≡ credit_row set.now spread.now }
    ensures next { IfOk result (λ row. IsNextCreditSpread set.now row) }
{
    if let Some(leg) = repeat_place(&spread.legs[..spread.count]) {
        return Err(RecordFault::at(commodity_field(leg), Cause::Double));
    }
    if set.credits().len() >= MOST_CREDIT_SPREADS {
        return Err(RecordFault::whole(Cause::Limit));
    }
    Ok(*spread)
}

#[tactic(auto, unfolding(crate::specs::Records::credit_from))]
fn credit_from(
    alloc: Global,
    set: &ParamSet,
    rate: &[u8],
    words: &[&[u8]],
) -> Result<CreditSpread, RecordFault>
    requires low { 6 ≤ length words.now }
    requires high { length words.now ≤ 12 }
    ensures ok { IfOk result (λ row. credit_from set.now rate.now (map (λ s. s.now) words.now) ≡ Ok row) }
    ensures err { IfErr result (λ e. (e.cause ≡ Cause.Memory) ⊎ (credit_from set.now rate.now (map (λ s. s.now) words.now) ≡ Err e)) }
    ensures next { IfOk result (λ row. IsNextCreditSpread set.now row) }
{
    let rate = read_number(Field::CreditSpread(2), rate, 0, 10_000)?;
    let found = read_legs(alloc, set, words)?;
    if !has_side_a(found.as_slice()) || !has_side_b(found.as_slice()) {
        return Err(RecordFault::whole(Cause::Fields));
    }
    let legs = known_legs(found.as_slice())?;
    let spread = CreditSpread {
        rate,
        count: found.len(),
        legs,
    };
    credit_row(set, &spread)
}

#[tactic(auto, unfolding(crate::specs::Records::credit_of))]
pub(crate) fn read_credit_spread(
    alloc: Global,
    set: &ParamSet,
    args: &[&[u8]],
) -> Result<CreditSpread, RecordFault>
    ensures ok { IfOk result (λ row. credit_of set.now (map (λ s. s.now) args.now) ≡ Ok row) }
    ensures err { IfErr result (λ e. (e.cause ≡ Cause.Memory) ⊎ (credit_of set.now (map (λ s. s.now) args.now) ≡ Err e)) }
    ensures next { IfOk result (λ row. IsNextCreditSpread set.now row) }
{
    match args {
        [] => Err(RecordFault::whole(Cause::Fields)),
        [rate, words @ ..] => match words.len() {
            6 | 9 | 12 => credit_from(alloc, set, rate, words),
            _ => Err(RecordFault::whole(Cause::Fields)),
        },
    }
}
