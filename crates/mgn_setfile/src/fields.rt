//! One field of a record, which a fault names.

ghost use Rattle.std.specs.Prelude.{◌≡◌, ◌≤◌, ◌^◌, IfOk, unsigned_abs};
ghost use Rattle.mgn_setfile.specs.Fields.{field_kind, field_name, field_number, field_side, field_signed, field_style, in_field};

use crate::fault::{Cause, RecordFault};
use crate::place::Field;
use mgn_ids::{ClassName, CommodityName, ContractName, IdFault, SetName};
use mgn_num::{NumFault, read_signed, read_unsigned};
use mgn_params::{Kind, LegSide, Style};

#[tactic(auto, unfolding(crate::specs::Fields::field_name, crate::specs::Fields::in_field))]
pub(crate) fn read_commodity_name(field: Field, word: &[u8]) -> Result<CommodityName, RecordFault>
    ensures { result ≡ in_field field (field_name word.now) }
{
    match CommodityName::read(word) {
        Ok(name) => Ok(name),
        Err(IdFault::Syntax) => Err(RecordFault::at(field, Cause::Name)),
        Err(IdFault::Range) => Err(RecordFault::at(field, Cause::Range)),
    }
}

#[tactic(auto, unfolding(crate::specs::Fields::field_name, crate::specs::Fields::in_field))]
pub(crate) fn read_contract_name(field: Field, word: &[u8]) -> Result<ContractName, RecordFault>
    ensures { result ≡ in_field field (field_name word.now) }
{
    match ContractName::read(word) {
        Ok(name) => Ok(name),
        Err(IdFault::Syntax) => Err(RecordFault::at(field, Cause::Name)),
        Err(IdFault::Range) => Err(RecordFault::at(field, Cause::Range)),
    }
}

#[tactic(auto, unfolding(crate::specs::Fields::field_name, crate::specs::Fields::in_field))]
pub(crate) fn read_class_name(field: Field, word: &[u8]) -> Result<ClassName, RecordFault>
    ensures { result ≡ in_field field (field_name word.now) }
{
    match ClassName::read(word) {
        Ok(name) => Ok(name),
        Err(IdFault::Syntax) => Err(RecordFault::at(field, Cause::Name)),
        Err(IdFault::Range) => Err(RecordFault::at(field, Cause::Range)),
    }
}

#[tactic(auto, unfolding(crate::specs::Fields::field_name, crate::specs::Fields::in_field))]
pub(crate) fn read_set_name(field: Field, word: &[u8]) -> Result<SetName, RecordFault>
    ensures { result ≡ in_field field (field_name word.now) }
{
    match SetName::read(word) {
        Ok(name) => Ok(name),
        Err(IdFault::Syntax) => Err(RecordFault::at(field, Cause::Name)),
        Err(IdFault::Range) => Err(RecordFault::at(field, Cause::Range)),
    }
}

// A number from `low` to `high`.
#[tactic(auto, unfolding(crate::specs::Fields::field_number, crate::specs::Fields::in_field))]
pub(crate) fn read_number(
    field: Field,
    word: &[u8],
    low: u64,
    high: u64,
) -> Result<u64, RecordFault>
    ensures value { result ≡ in_field field (field_number low high word.now) }
    ensures bound { IfOk result (λ n. (low ≤ n) × (n ≤ high)) }
{
    match read_unsigned(word, low, high) {
        Ok(number) => Ok(number),
        Err(NumFault::Syntax) => Err(RecordFault::at(field, Cause::Number)),
        Err(NumFault::Range) => Err(RecordFault::at(field, Cause::Range)),
    }
}

// A number of at most `high` in size.
#[tactic(auto, unfolding(crate::specs::Fields::field_signed, crate::specs::Fields::in_field))]
pub(crate) fn read_number_of_size(field: Field, word: &[u8], high: u64) -> Result<i64, RecordFault>
    requires { high ≤ 10 ^ 8 }
    ensures value { result ≡ in_field field (field_signed high word.now) }
    ensures bound { IfOk result (λ z. unsigned_abs z ≤ high) }
{
    match read_signed(word, high) {
        Ok(number) => Ok(number),
        Err(NumFault::Syntax) => Err(RecordFault::at(field, Cause::Number)),
        Err(NumFault::Range) => Err(RecordFault::at(field, Cause::Range)),
    }
}

#[tactic(auto, unfolding(crate::specs::Fields::field_kind, crate::specs::Fields::in_field))]
pub(crate) fn read_kind(field: Field, word: &[u8]) -> Result<Kind, RecordFault>
    ensures { result ≡ in_field field (field_kind word.now) }
{
    if word == b"F".as_slice() {
        Ok(Kind::Future)
    } else if word == b"C".as_slice() {
        Ok(Kind::Call)
    } else if word == b"P".as_slice() {
        Ok(Kind::Put)
    } else {
        Err(RecordFault::at(field, Cause::Name))
    }
}

#[tactic(auto, unfolding(crate::specs::Fields::field_style, crate::specs::Fields::in_field))]
pub(crate) fn read_style(field: Field, kind: Kind, word: &[u8]) -> Result<Style, RecordFault>
    ensures { result ≡ in_field field (field_style kind word.now) }
{
    if word == b"P".as_slice() {
        match kind {
            Kind::Future => Err(RecordFault::at(field, Cause::Range)),
            Kind::Call | Kind::Put => Ok(Style::Premium),
        }
    } else if word == b"F".as_slice() {
        Ok(Style::Other)
    } else {
        Err(RecordFault::at(field, Cause::Name))
    }
}

#[tactic(auto, unfolding(crate::specs::Fields::field_side, crate::specs::Fields::in_field))]
pub(crate) fn read_side(field: Field, word: &[u8]) -> Result<LegSide, RecordFault>
    ensures { result ≡ in_field field (field_side word.now) }
{
    if word == b"A".as_slice() {
        Ok(LegSide::A)
    } else if word == b"B".as_slice() {
        Ok(LegSide::B)
    } else {
        Err(RecordFault::at(field, Cause::Name))
    }
}
