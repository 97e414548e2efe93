//! What is wrong with the fields of a record as a whole.

ghost use Rattle.std.specs.Prelude.{◌≡◌, [], slice_index_or, Some};
ghost use Rattle.csv.specs.Records.{fields_of};
ghost use Rattle.mgn_setfile.specs.Words.{count_words, detail_words, has_whole_legs, kind_of, kind_words, misfit, misfit_of, other_side, side_words};

use csv::ByteRecord;
use mgn_params::LegSide;
use std::fmt;

/// A kind of record after the header.
#[derive(Clone, Copy, PartialEq, Eq, Debug)]
pub enum RecordKind {
    Commodity,
    Month,
    Contract,
    /// A spread within a commodity.
    Spread,
    /// A spread between commodities.
    CreditSpread,
    Class,
    /// A spot month charge.
    Spot,
}

/// What is wrong with the fields of a record as a whole.
#[derive(Clone, Copy, PartialEq, Eq, Debug)]
pub enum Detail {
    /// It has so many fields, and a record of its kind has not.
    Count(RecordKind, usize),
    /// It is two records in one line.
    Second,
    /// It is an intercommodity spread without a leg on this side.
    NoLeg(LegSide),
}

fn kind_of(letter: &[u8]) -> Option<RecordKind>
    ensures { result ≡ kind_of letter.now }
{
    if letter == b"G".as_slice() {
        Some(RecordKind::Commodity)
    } else if letter == b"M".as_slice() {
        Some(RecordKind::Month)
    } else if letter == b"K".as_slice() {
        Some(RecordKind::Contract)
    } else if letter == b"S".as_slice() {
        Some(RecordKind::Spread)
    } else if letter == b"I".as_slice() {
        Some(RecordKind::CreditSpread)
    } else if letter == b"V".as_slice() {
        Some(RecordKind::Class)
    } else if letter == b"T".as_slice() {
        Some(RecordKind::Spot)
    } else {
        None
    }
}

// The side of a spread's first leg has all its legs, so the other has none.
fn other_side(first: &[u8]) -> LegSide
    ensures { result ≡ other_side first.now }
{
    if first == b"A".as_slice() {
        LegSide::B
    } else {
        LegSide::A
    }
}

fn has_whole_legs(count: usize) -> bool
    ensures { result ≡ has_whole_legs count }
{
    matches!(count, 8 | 11 | 14)
}

// The field at a place, from 0.
fn field_at(row: &ByteRecord, at: usize) -> &[u8]
    ensures { result.now ≡ slice_index_or (fields_of row.now) at [] }
{
    row.get(at).unwrap_or(b"".as_slice())
}

fn misfit(kind: RecordKind, row: &ByteRecord) -> Detail
    ensures { result ≡ misfit kind (fields_of row.now) }
{
    match kind {
        RecordKind::CreditSpread if has_whole_legs(row.len()) => {
            Detail::NoLeg(other_side(field_at(row, 3)))
        }
        _ => Detail::Count(kind, row.len()),
    }
}

// What is wrong with the fields of a record, where no one of them is wrong.
pub(crate) fn misfit_of(row: &ByteRecord) -> Option<Detail>
    ensures { result ≡ misfit_of (fields_of row.now) }
{
    kind_of(field_at(row, 0)).map(|kind| misfit(kind, row))
}

// How many fields a record of a kind has.
fn kind_words(kind: RecordKind) -> &'static str
    ensures { result.now ≡ kind_words kind }
{
    match kind {
        RecordKind::Commodity => "a G record has 3",
        RecordKind::Month => "an M record has 4",
        RecordKind::Contract => "a K record has 24",
        RecordKind::Spread => "an S record has 7",
        RecordKind::CreditSpread => "an I record has 8, 11 or 14",
        RecordKind::Class => "a V record has 4",
        RecordKind::Spot => "a T record has 5",
    }
}

fn side_words(side: LegSide) -> &'static str
    ensures { result.now ≡ side_words side }
{
    match side {
        LegSide::A => "it has no leg on side A",
        LegSide::B => "it has no leg on side B",
    }
}

// A number of fields.
#[derive(Clone, Copy)]
struct FieldCount(usize);

impl fmt::Display for FieldCount {
    ghost output = { λ count. Some (count_words count.0) };

    fn fmt<W: fmt::Write>(&self, f: &mut fmt::Formatter<W>) -> fmt::Result {
        match self.0 {
            1 => f.write_str("1 field"),
            count => write!(f, "{count} fields"),
        }
    }
}

impl fmt::Display for Detail {
    ghost output = { λ detail. Some (detail_words detail) };

    fn fmt<W: fmt::Write>(&self, f: &mut fmt::Formatter<W>) -> fmt::Result {
        match self {
            Detail::Count(kind, count) => {
                write!(
                    f,
                    "it has {}, and {}",
                    FieldCount(*count),
                    kind_words(*kind)
                )
            }
            Detail::Second => f.write_str("it is two records in one line"),
            Detail::NoLeg(side) => f.write_str(side_words(*side)),
        }
    }
}
