// The end of a line in a row of bytes, written from its last byte to its first, so that the digits of a number are written
// where they stay. Each function writes its text so that it ends at `end`, and returns where it starts.
ghost use Rattle.std.specs.Prelude.{◌≡◌, ◌+◌, ◌≤◌, ◌++◌, ◌∷◌, drop, length};
ghost use Rattle.std.specs.Fmt.{signed_decimal};
ghost use Rattle.mgn_wire.specs.Fields.{field, figures_text, number_text};
ghost use Rattle.mgn_wire.specs.StatementText.{name_text};

use itoa::{Buffer, write_digits};
use mgn_machine::UnitFigures;
use mgn_num::{Cents, Quantity};

/// Room for a line of at most one amount. The longest is a lot's: a quantity of at most 22 bytes, two numbers of 21, a
/// name of 17 and a mark of 2, each with the space before it, a letter and a line feed: 85 bytes.
pub(crate) const ROW: usize = 96;

/// Room for a line of amounts. The longest is a commodity's: six amounts of at most 39 bytes, a number of 21 and a name of
/// 17, each with the space before it, a letter and a line feed: 274 bytes.
pub(crate) const LONG_ROW: usize = 288;

#[inline]
pub(crate) fn write_byte(byte: u8, row: &mut [u8], end: usize) -> usize
    requires { (1 ≤ end) × (end ≤ length row.old) }
    ensures start { result + 1 ≡ end }
    ensures written { drop result row.new ≡ byte ∷ drop end row.old }
{
    let start = end - 1;
    row[start] = byte;
    start
}

#[inline]
pub(crate) fn write_text(text: &[u8], row: &mut [u8], end: usize) -> usize
    requires { (length text.now ≤ end) × (end ≤ length row.old) }
    ensures start { result + length text.now ≡ end }
    ensures written { drop result row.new ≡ text.now ++ drop end row.old }
{
    let start = end - text.len();
    row[start..end].copy_from_slice(text);
    start
}

// A name after a space: at most 17 bytes.
#[inline]
pub(crate) fn write_name(name: &[u8], row: &mut [u8], end: usize) -> usize
    requires { (length name.now ≤ 16) × (17 ≤ end) × (end ≤ length row.old) }
    ensures start { result + length (name_text name.now) ≡ end }
    ensures short { end ≤ result + 17 }
    ensures written { drop result row.new ≡ name_text name.now ++ drop end row.old }
{
    let start = write_text(name, row, end);
    write_byte(b' ', row, start)
}

// A number after a space: at most 21 bytes.
#[inline]
#[tactic(auto, using(crate::proofs::RoomFacts::decimal_short))]
pub(crate) fn write_number(number: u64, row: &mut [u8], end: usize) -> usize
    requires { (21 ≤ end) × (end ≤ length row.old) }
    ensures start { result + length (number_text number) ≡ end }
    ensures short { end ≤ result + 21 }
    ensures written { drop result row.new ≡ number_text number ++ drop end row.old }
{
    let start = write_digits(number, row, end);
    write_byte(b' ', row, start)
}

// A number, its sign first where it is below 0: at most 21 bytes.
#[inline]
#[tactic(auto, using(crate::proofs::RoomFacts::decimal_short, crate::proofs::RoomFacts::text_from_0, crate::proofs::RoomFacts::text_below_0))]
fn write_signed(number: i64, row: &mut [u8], end: usize) -> usize
    requires { (21 ≤ end) × (end ≤ length row.old) }
    ensures start { result + length (signed_decimal number) ≡ end }
    ensures short { end ≤ result + 21 }
    ensures written { drop result row.new ≡ signed_decimal number ++ drop end row.old }
{
    let start = write_digits(number.unsigned_abs(), row, end);
    if number < 0 {
        write_byte(b'-', row, start)
    } else {
        start
    }
}

// A quantity after a space: at most 22 bytes.
#[inline]
pub(crate) fn write_quantity(quantity: Quantity, row: &mut [u8], end: usize) -> usize
    requires { (22 ≤ end) × (end ≤ length row.old) }
    ensures start { result + length (field quantity) ≡ end }
    ensures short { end ≤ result + 22 }
    ensures written { drop result row.new ≡ field quantity ++ drop end row.old }
{
    let start = write_signed(quantity.contracts(), row, end);
    write_byte(b' ', row, start)
}

// Few amounts have more digits than a number of 64 bits.
#[inline]
#[tactic(auto, using(crate::proofs::RoomFacts::amount_short))]
fn write_cents(cents: Cents, row: &mut [u8], end: usize) -> usize
    requires { (38 ≤ end) × (end ≤ length row.old) }
    ensures start { result + length (signed_decimal cents) ≡ end }
    ensures short { end ≤ result + 38 }
    ensures written { drop result row.new ≡ signed_decimal cents ++ drop end row.old }
{
    let amount = cents.amount();
    match i64::try_from(amount) {
        Ok(number) => write_signed(number, row, end),
        Err(_) => write_text(Buffer::new().format(amount).as_bytes(), row, end),
    }
}

// An amount after a space: at most 39 bytes.
pub(crate) fn write_field(cents: Cents, row: &mut [u8], end: usize) -> usize
    requires { (39 ≤ end) × (end ≤ length row.old) }
    ensures start { result + length (field cents) ≡ end }
    ensures short { end ≤ result + 39 }
    ensures written { drop result row.new ≡ field cents ++ drop end row.old }
{
    let start = write_cents(cents, row, end);
    write_byte(b' ', row, start)
}

// Five amounts, each after a space: at most 195 bytes.
pub(crate) fn write_figures(figures: &UnitFigures, row: &mut [u8], end: usize) -> usize
    requires { (195 ≤ end) × (end ≤ length row.old) }
    ensures start { result + length (figures_text figures.now) ≡ end }
    ensures short { end ≤ result + 195 }
    ensures written { drop result row.new ≡ figures_text figures.now ++ drop end row.old }
{
    let start = write_field(figures.room, row, end);
    let start = write_field(figures.exposure_value, row, start);
    let start = write_field(figures.value, row, start);
    let start = write_field(figures.exposure_requirement, row, start);
    write_field(figures.requirement, row, start)
}
