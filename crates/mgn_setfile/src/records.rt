//! One record against the tables so far.

ghost use Rattle.std.specs.Prelude.{◌^◌, ◌≡◌, ◌<◌, ◌≤◌, map, IfOk, length};
ghost use Rattle.mgn_params.specs.Limits.{IsClass, IsNextClass, IsNextCommodity, IsNextMonth};
ghost use Rattle.mgn_setfile.specs.Records.{class_from, class_of, class_row, commodity_from, commodity_of, month_from, month_of, month_row};

use crate::fault::{Cause, RecordFault};
use crate::fields::{read_class_name, read_commodity_name, read_number};
use crate::place::Field;
use crate::rows::Rows;
use mgn_params::{
    Class, Commodity, MOST_CLASSES, MOST_COMMODITIES, MOST_MONTHS, MOST_MONTHS_EACH, Month,
    ParamSet,
};

#[tactic(auto, unfolding(crate::specs::Records::commodity_from))]
fn commodity_from(set: &ParamSet, name: &[u8], charge: &[u8]) -> Result<Commodity, RecordFault>
    ensures value { result ≡ commodity_from set.now name.now charge.now }
    ensures next { IfOk result (λ row. IsNextCommodity set.now row) }
{
    let name = read_commodity_name(Field::Commodity(2), name)?;
    let short_option_charge = read_number(Field::Commodity(3), charge, 0, 1_000_000_000)?;
    if set.has_commodity(name) {
        return Err(RecordFault::at(Field::Commodity(2), Cause::Double));
    }
    if set.commodity_count() >= MOST_COMMODITIES {
        return Err(RecordFault::whole(Cause::Limit));
    }
    Ok(Commodity {
        name,
        short_option_charge,
    })
}

#[tactic(auto, unfolding(crate::specs::Records::commodity_of))]
pub(crate) fn read_commodity(set: &ParamSet, args: &[&[u8]]) -> Result<Commodity, RecordFault>
    ensures value { result ≡ commodity_of set.now (map (λ s. s.now) args.now) }
    ensures next { IfOk result (λ row. IsNextCommodity set.now row) }
{
    match args {
        [name, charge] => commodity_from(set, name, charge),
        _ => Err(RecordFault::whole(Cause::Fields)),
    }
}

fn month_row(rows: &Rows, commodity: usize, number: u64, tier: u64) -> Result<Month, RecordFault>
    requires commodity { commodity < length rows.now.commodities }
    requires number { (1 ≤ number) × (number ≤ 999999) }
    requires tier { (1 ≤ tier) × (tier ≤ 8) }
    ensures value { result ≡ month_row rows.now commodity number tier }
    ensures next { IfOk result (λ row. IsNextMonth rows.now row) }
{
    if rows.month(commodity, number).is_some() {
        return Err(RecordFault::at(Field::Month(3), Cause::Double));
    }
    if rows.months_of(commodity) >= MOST_MONTHS_EACH || rows.set().month_count() >= MOST_MONTHS {
        return Err(RecordFault::whole(Cause::Limit));
    }
    Ok(Month {
        commodity,
        number,
        tier: (tier - 1) as usize,
    })
}

#[tactic(auto, unfolding(crate::specs::Records::month_from))]
fn month_from(rows: &Rows, name: &[u8], number: &[u8], tier: &[u8]) -> Result<Month, RecordFault>
    ensures value { result ≡ month_from rows.now name.now number.now tier.now }
    ensures next { IfOk result (λ row. IsNextMonth rows.now row) }
{
    let name = read_commodity_name(Field::Month(2), name)?;
    let number = read_number(Field::Month(3), number, 1, 999_999)?;
    let tier = read_number(Field::Month(4), tier, 1, 8)?;
    match rows.set().commodity(name) {
        Some(commodity) => month_row(rows, commodity, number, tier),
        None => Err(RecordFault::at(Field::Month(2), Cause::Unknown)),
    }
}

#[tactic(auto, unfolding(crate::specs::Records::month_of))]
pub(crate) fn read_month(rows: &Rows, args: &[&[u8]]) -> Result<Month, RecordFault>
    ensures value { result ≡ month_of rows.now (map (λ s. s.now) args.now) }
    ensures next { IfOk result (λ row. IsNextMonth rows.now row) }
{
    match args {
        [name, number, tier] => month_from(rows, name, number, tier),
        _ => Err(RecordFault::whole(Cause::Fields)),
    }
}

fn class_row(set: &ParamSet, class: Class) -> Result<Class, RecordFault>
    requires price { class.price ≤ 10 ^ 8 }
    requires haircut { class.haircut ≤ 10000 }
    ensures value { result ≡ class_row set.now class }
    ensures next { IfOk result (λ row. IsNextClass set.now row) }
{
    if class.name.as_bytes() == b"CASH".as_slice() || set.has_class(class.name) {
        return Err(RecordFault::at(Field::Class(2), Cause::Double));
    }
    if set.class_count() >= MOST_CLASSES {
        return Err(RecordFault::whole(Cause::Limit));
    }
    Ok(class)
}

#[tactic(auto, unfolding(crate::specs::Records::class_from))]
fn class_from(
    set: &ParamSet,
    name: &[u8],
    price: &[u8],
    haircut: &[u8],
) -> Result<Class, RecordFault>
    ensures value { result ≡ class_from set.now name.now price.now haircut.now }
    ensures next { IfOk result (λ row. IsNextClass set.now row) }
{
    let name = read_class_name(Field::Class(2), name)?;
    let price = read_number(Field::Class(3), price, 0, 100_000_000)?;
    let haircut = read_number(Field::Class(4), haircut, 0, 10_000)?;
    let class = Class {
        name,
        price,
        haircut,
    };
    class_row(set, class)
}

#[tactic(auto, unfolding(crate::specs::Records::class_of))]
pub(crate) fn read_class(set: &ParamSet, args: &[&[u8]]) -> Result<Class, RecordFault>
    ensures value { result ≡ class_of set.now (map (λ s. s.now) args.now) }
    ensures next { IfOk result (λ row. IsNextClass set.now row) }
{
    match args {
        [name, price, haircut] => class_from(set, name, price, haircut),
        _ => Err(RecordFault::whole(Cause::Fields)),
    }
}
