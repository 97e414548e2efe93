//! The records of spreads within a commodity and of its spot month charge, against the tables so far.

ghost use Rattle.std.specs.Prelude.{◌≡◌, ◌<◌, ◌≤◌, ◌^◌, map, IfOk, length};
ghost use Rattle.mgn_params.specs.Limits.{IsNextSpot, IsNextSpread, IsSpotCharge, IsSpread};
ghost use Rattle.mgn_setfile.specs.Records.{spot_charge_of_record, spot_from, spot_row, spread_from, spread_of, spread_row, tier_from};

use crate::fault::{Cause, RecordFault};
use crate::fields::{read_commodity_name, read_number};
use crate::place::Field;
use crate::rows::Rows;
use mgn_params::{MOST_SPREADS, MOST_SPREADS_EACH, ParamSet, SpotCharge, Spread};

// A tier with its ratio, from a field on.
#[tactic(auto, unfolding(crate::specs::Records::tier_from))]
fn read_tier(field: usize, tier: &[u8], ratio: &[u8]) -> Result<(usize, u64), RecordFault>
    requires { field ≤ 5 }
    ensures value { result ≡ tier_from field tier.now ratio.now }
    ensures bound { IfOk result (λ t. (t.0 < 8) × (0 < t.1) × (t.1 ≤ 10 ^ 6)) }
{
    let tier = read_number(Field::Spread(field), tier, 1, 8)?;
    let ratio = read_number(Field::Spread(field + 1), ratio, 1, 1_000_000)?;
    Ok(((tier - 1) as usize, ratio))
}

fn spread_row(rows: &Rows, spread: Spread) -> Result<Spread, RecordFault>
    requires { IsSpread (length rows.now.commodities) spread }
    ensures value { result ≡ spread_row rows.now spread }
    ensures next { IfOk result (λ row. IsNextSpread rows.now row) }
{
    if rows.spreads_of(spread.commodity) >= MOST_SPREADS_EACH
        || rows.set().spreads().len() >= MOST_SPREADS
    {
        return Err(RecordFault::whole(Cause::Limit));
    }
    Ok(spread)
}

#[tactic(auto, unfolding(crate::specs::Records::spread_from))]
fn spread_from(
    rows: &Rows,
    name: &[u8],
    tier: &[u8],
    ratio: &[u8],
    other: &[u8],
    other_ratio: &[u8],
    charge: &[u8],
) -> Result<Spread, RecordFault>
    ensures value { result ≡ spread_from rows.now name.now tier.now ratio.now other.now other_ratio.now charge.now }
    ensures next { IfOk result (λ row. IsNextSpread rows.now row) }
{
    let name = read_commodity_name(Field::Spread(2), name)?;
    let (first_tier, first_ratio) = read_tier(3, tier, ratio)?;
    let (second_tier, second_ratio) = read_tier(5, other, other_ratio)?;
    let charge = read_number(Field::Spread(7), charge, 0, 1_000_000_000)?;
    let Some(commodity) = rows.set().commodity(name) else {
        return Err(RecordFault::at(Field::Spread(2), Cause::Unknown));
    };
    let spread = Spread {
        commodity,
        first_tier,
        first_ratio,
        second_tier,
        second_ratio,
        charge,
    };
    spread_row(rows, spread)
}

#[tactic(auto, unfolding(crate::specs::Records::spread_of))]
pub(crate) fn read_spread(rows: &Rows, args: &[&[u8]]) -> Result<Spread, RecordFault>
    ensures value { result ≡ spread_of rows.now (map (λ s. s.now) args.now) }
    ensures next { IfOk result (λ row. IsNextSpread rows.now row) }
{
    match args {
        [name, tier, ratio, other, other_ratio, charge] => {
            spread_from(rows, name, tier, ratio, other, other_ratio, charge)
        }
        _ => Err(RecordFault::whole(Cause::Fields)),
    }
}

fn spot_row(set: &ParamSet, spot: SpotCharge) -> Result<SpotCharge, RecordFault>
    requires { IsSpotCharge (length set.now.commodities) spot }
    ensures value { result ≡ spot_row set.now spot }
    ensures next { IfOk result (λ row. IsNextSpot set.now row) }
{
    if set.spots_of(spot.commodity) >= 1 {
        return Err(RecordFault::at(Field::Spot(2), Cause::Double));
    }
    Ok(spot)
}

#[tactic(auto, unfolding(crate::specs::Records::spot_from))]
fn spot_from(
    set: &ParamSet,
    name: &[u8],
    tier: &[u8],
    spread_rate: &[u8],
    outright_rate: &[u8],
) -> Result<SpotCharge, RecordFault>
    ensures value { result ≡ spot_from set.now name.now tier.now spread_rate.now outright_rate.now }
    ensures next { IfOk result (λ row. IsNextSpot set.now row) }
{
    let name = read_commodity_name(Field::Spot(2), name)?;
    let tier = read_number(Field::Spot(3), tier, 1, 8)?;
    let spread_rate = read_number(Field::Spot(4), spread_rate, 0, 1_000_000_000)?;
    let outright_rate = read_number(Field::Spot(5), outright_rate, 0, 1_000_000_000)?;
    let Some(commodity) = set.commodity(name) else {
        return Err(RecordFault::at(Field::Spot(2), Cause::Unknown));
    };
    let spot = SpotCharge {
        commodity,
        tier: (tier - 1) as usize,
        spread_rate,
        outright_rate,
    };
    spot_row(set, spot)
}

#[tactic(auto, unfolding(crate::specs::Records::spot_charge_of_record))]
pub(crate) fn read_spot(set: &ParamSet, args: &[&[u8]]) -> Result<SpotCharge, RecordFault>
    ensures value { result ≡ spot_charge_of_record set.now (map (λ s. s.now) args.now) }
    ensures next { IfOk result (λ row. IsNextSpot set.now row) }
{
    match args {
        [name, tier, spread_rate, outright_rate] => {
            spot_from(set, name, tier, spread_rate, outright_rate)
        }
        _ => Err(RecordFault::whole(Cause::Fields)),
    }
}
