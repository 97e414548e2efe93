//! The record of a contract against the tables so far.

ghost use Rattle.std.specs.Prelude.{◌≡◌, ◌≤◌, ◌^◌, map, IfOk, length, All, unsigned_abs};
ghost use Rattle.mgn_setfile.specs.Fields.{field_signed, in_field, value_of_style};
ghost use Rattle.mgn_params.specs.Limits.{IsContract, IsNextContract};
ghost use Rattle.mgn_setfile.specs.Records.{contract_after_names, contract_at_month, contract_names_from, contract_of, contract_row, contract_terms_from, contract_with_values, values_from};

use crate::fault::{Cause, RecordFault};
use crate::fields::{
    read_commodity_name, read_contract_name, read_kind, read_number, read_number_of_size,
    read_style,
};
use crate::place::Field;
use crate::rows::Rows;
use mgn_ids::{CommodityName, ContractName};
use mgn_params::{Contract, Kind, MOST_CONTRACTS, MOST_CONTRACTS_EACH, RiskArray, Style};

// The names of the contract and of its commodity, and the number of its month.
#[tactic(auto, unfolding(crate::specs::Records::contract_names_from))]
fn read_names(
    contract: &[u8],
    commodity: &[u8],
    month: &[u8],
) -> Result<(ContractName, CommodityName, u64), RecordFault>
    ensures { result ≡ contract_names_from contract.now commodity.now month.now }
{
    let name = read_contract_name(Field::Contract(2), contract)?;
    let commodity = read_commodity_name(Field::Contract(3), commodity)?;
    let number = read_number(Field::Contract(4), month, 1, 999_999)?;
    Ok((name, commodity, number))
}

// A market value; of the other style it is 0.
#[tactic(auto, unfolding(crate::specs::Fields::in_field))]
fn value_of_style(field: Field, style: Style, value: u64) -> Result<u64, RecordFault>
    ensures value { result ≡ in_field field (value_of_style style value) }
    ensures bound { IfOk result (λ n. n ≤ value) }
{
    match style {
        Style::Premium => Ok(value),
        Style::Other => {
            if value == 0 {
                Ok(0)
            } else {
                Err(RecordFault::at(field, Cause::Range))
            }
        }
    }
}

// The kind, the style, the delta and the value.
#[tactic(auto, unfolding(crate::specs::Records::contract_terms_from))]
fn read_terms(
    kind: &[u8],
    style: &[u8],
    delta: &[u8],
    value: &[u8],
) -> Result<(Kind, Style, i64, u64), RecordFault>
    ensures value { result ≡ contract_terms_from kind.now style.now delta.now value.now }
    ensures bound { IfOk result (λ terms. (unsigned_abs terms.2 ≤ 10 ^ 5) × (terms.3 ≤ 10 ^ 8)) }
{
    let kind = read_kind(Field::Contract(5), kind)?;
    let style = read_style(Field::Contract(6), kind, style)?;
    let delta = read_number_of_size(Field::Contract(7), delta, 100_000)?;
    let value = read_number(Field::Contract(8), value, 0, 100_000_000)?;
    let value = value_of_style(Field::Contract(8), style, value)?;
    Ok((kind, style, delta, value))
}

// A value of a risk array, at most 100,000,000 in size.
fn read_value(field: Field, word: &[u8]) -> Result<i32, RecordFault>
    ensures value { result ≡ in_field field (field_signed (10 ^ 8) word.now) }
    ensures bound { IfOk result (λ v. unsigned_abs v ≤ 10 ^ 8) }
{
    let value = read_number_of_size(field, word, 100_000_000)?;
    Ok(value as i32)
}

fn read_values(words: &[&[u8]]) -> Result<[i32; 16], RecordFault>
    requires { length words.now ≡ 16 }
    ensures value { result ≡ values_from 9 (map (λ s. s.now) words.now) }
    ensures bound { IfOk result (λ array. All (λ v. unsigned_abs v ≤ 10 ^ 8) array) }
{
    let mut values = [0i32; 16];
    for i in 0..16 {
        values[i] = read_value(Field::Contract(9 + i), words[i])?;
    }
    Ok(values)
}

fn contract_row(rows: &Rows, contract: &Contract) -> Result<Contract, RecordFault>
    requires { IsContract (length rows.now.commodities) rows.now.months contract.now }
    ensures value { result ≡ contract_row rows.now contract.now }
    ensures next { IfOk result (λ row. IsNextContract rows.now row) }
{
    if rows.set().has_contract(contract.name) {
        return Err(RecordFault::at(Field::Contract(2), Cause::Double));
    }
    if rows.contracts_of(contract.commodity) >= MOST_CONTRACTS_EACH
        || rows.set().contract_count() >= MOST_CONTRACTS
    {
        return Err(RecordFault::whole(Cause::Limit));
    }
    Ok(*contract)
}

#[tactic(auto, unfolding(crate::specs::Records::contract_at_month))]
fn contract_at_month(
    rows: &Rows,
    names: &(ContractName, CommodityName, u64),
    terms: &(Kind, Style, i64, u64),
    array: &[i32; 16],
) -> Result<Contract, RecordFault>
    requires terms { (unsigned_abs terms.now.2 ≤ 10 ^ 5) × (terms.now.3 ≤ 10 ^ 8) }
    requires array { All (λ v. unsigned_abs v ≤ 10 ^ 8) array.now }
    ensures value { result ≡ contract_at_month rows.now names.now terms.now array.now }
    ensures next { IfOk result (λ row. IsNextContract rows.now row) }
{
    let Some(commodity) = rows.set().commodity(names.1) else {
        return Err(RecordFault::at(Field::Contract(3), Cause::Unknown));
    };
    let Some(month) = rows.month(commodity, names.2) else {
        return Err(RecordFault::at(Field::Contract(4), Cause::Unknown));
    };
    let contract = Contract {
        name: names.0,
        commodity,
        month,
        kind: terms.0,
        style: terms.1,
        delta: terms.2,
        option_value: terms.3,
        array: RiskArray::new(*array),
    };
    contract_row(rows, &contract)
}

#[tactic(auto, unfolding(crate::specs::Records::contract_with_values))]
fn contract_with_values(
    rows: &Rows,
    names: Result<(ContractName, CommodityName, u64), RecordFault>,
    terms: Result<(Kind, Style, i64, u64), RecordFault>,
    array: &[&[u8]],
) -> Result<Contract, RecordFault>
    requires words { length array.now ≡ 16 }
    requires terms { IfOk terms (λ s. (unsigned_abs s.2 ≤ 10 ^ 5) × (s.3 ≤ 10 ^ 8)) }
    ensures value { result ≡ contract_with_values rows.now names terms (map (λ s. s.now) array.now) }
    ensures next { IfOk result (λ row. IsNextContract rows.now row) }
{
    let names = names?;
    let terms = terms?;
    let values = read_values(array)?;
    contract_at_month(rows, &names, &terms, &values)
}

#[tactic(auto, unfolding(crate::specs::Records::contract_after_names))]
fn contract_after_names(
    rows: &Rows,
    names: Result<(ContractName, CommodityName, u64), RecordFault>,
    args: &[&[u8]],
) -> Result<Contract, RecordFault>
    ensures value { result ≡ contract_after_names rows.now names (map (λ s. s.now) args.now) }
    ensures next { IfOk result (λ row. IsNextContract rows.now row) }
{
    let [kind, style, delta, value, array @ ..] = args else {
        return Err(RecordFault::whole(Cause::Fields));
    };
    if array.len() != 16 {
        return Err(RecordFault::whole(Cause::Fields));
    }
    contract_with_values(rows, names, read_terms(kind, style, delta, value), array)
}

#[tactic(auto, unfolding(crate::specs::Records::contract_of))]
pub(crate) fn read_contract(rows: &Rows, args: &[&[u8]]) -> Result<Contract, RecordFault>
    ensures value { result ≡ contract_of rows.now (map (λ s. s.now) args.now) }
    ensures next { IfOk result (λ row. IsNextContract rows.now row) }
{
    match args {
        [contract, commodity, month, rest @ ..] => {
            contract_after_names(rows, read_names(contract, commodity, month), rest)
        }
        _ => Err(RecordFault::whole(Cause::Fields)),
    }
}
