//! The words in which a cause is told, by the field that has it.

ghost use Rattle.std.specs.Prelude.{◌≡◌};
ghost use Rattle.mgn_setfile.specs.Words.{double_words, fields_words, header_words, is_named, name_words, range_words, size_words, spelling, unknown_words, words_of};

use crate::fault::Cause;
use crate::place::Field;

pub(crate) fn words_of(cause: Cause, field: Option<Field>) -> &'static str
    ensures { result.now ≡ words_of cause field }
{
    match cause {
        Cause::Header => header_words(field),
        Cause::Fields => fields_words(field),
        Cause::Name => name_words(field),
        Cause::Number => "it is not spelled as a number",
        Cause::Range => range_words(field),
        Cause::Unknown => unknown_words(field),
        Cause::Double => double_words(field),
        Cause::Limit => "its table has as many rows as it may have",
        Cause::Memory => "memory could not be had",
    }
}

fn header_words(field: Option<Field>) -> &'static str
    ensures { result.now ≡ header_words field }
{
    match field {
        Some(_) => "the version must be 1 or 2",
        None => "the first record, and no other, must be a header: H, version 1 or 2, and a name",
    }
}

// Where no field has it, a detail tells more, unless the record has no fields.
fn fields_words(field: Option<Field>) -> &'static str
    ensures { result.now ≡ fields_words field }
{
    match field {
        Some(_) => "this version has no record of this kind",
        None => "it has no fields",
    }
}

fn spelling() -> &'static str
    ensures { result.now ≡ spelling }
{
    "a name must be 1 to 16 of the letters A to Z and digits"
}

fn name_words(field: Option<Field>) -> &'static str
    ensures { result.now ≡ name_words field }
{
    match field {
        Some(Field::Contract(5)) => "it must be F, C or P",
        Some(Field::Contract(6)) => "it must be P or F",
        Some(Field::CreditSpread(n)) if n % 3 == 1 => "it must be A or B",
        _ => spelling(),
    }
}

// Whether a field is a name.
fn is_named(field: Field) -> bool
    ensures { result ≡ is_named field }
{
    match field {
        Field::Kind => false,
        Field::Header(n) => n == 3,
        Field::Contract(n) => n <= 3,
        Field::CreditSpread(n) => n >= 3 && n % 3 == 0,
        _ => field.number() == 2,
    }
}

fn size_words(field: Field) -> &'static str
    ensures { result.now ≡ size_words field }
{
    if is_named(field) {
        "the name has more than 16 bytes"
    } else {
        "the number is outside its limits"
    }
}

fn range_words(field: Option<Field>) -> &'static str
    ensures { result.now ≡ range_words field }
{
    match field {
        Some(Field::Contract(6)) => "the style of a future must be F",
        Some(Field::Contract(8)) =>
            "the number is outside its limits, or is not 0 though the style is F",
        Some(field) => size_words(field),
        None => "the number is outside its limits",
    }
}

fn unknown_words(field: Option<Field>) -> &'static str
    ensures { result.now ≡ unknown_words field }
{
    match field {
        Some(Field::Contract(4)) => "no earlier record gives this month of its commodity",
        _ => "no earlier record gives this commodity",
    }
}

fn double_words(field: Option<Field>) -> &'static str
    ensures { result.now ≡ double_words field }
{
    match field {
        Some(Field::Month(_)) => "an earlier record gives this month of its commodity",
        Some(Field::CreditSpread(_)) => "an earlier leg is of this commodity",
        Some(Field::Class(_)) =>
            "an earlier record gives this class, or it is CASH, which every set has",
        Some(Field::Spot(_)) => "an earlier record gives the charge of this commodity",
        _ => "an earlier record gives this name",
    }
}
