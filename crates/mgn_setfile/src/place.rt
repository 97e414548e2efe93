//! The fields of a record.

ghost use Rattle.std.specs.Prelude.{◌≡◌, map, Some};
ghost use Rattle.mgn_setfile.specs.Words.{field_words, leg_name, name, name_or, number, part};

use std::fmt;

/// A field of a record, by the kind of the record and its number there. The first field of every record is its kind,
/// so the numbers begin with 2.
#[derive(Clone, Copy, PartialEq, Eq, Debug)]
pub enum Field {
    /// The first field, which says of what kind a record is.
    Kind,
    /// A field of a header.
    Header(usize),
    /// A field of a commodity.
    Commodity(usize),
    /// A field of a month.
    Month(usize),
    /// A field of a contract.
    Contract(usize),
    /// A field of a spread within a commodity.
    Spread(usize),
    /// A field of a spread between commodities.
    CreditSpread(usize),
    /// A field of a collateral class.
    Class(usize),
    /// A field of a spot month charge.
    Spot(usize),
}

impl Field {
    // Its number in its record, from 1.
    pub(crate) fn number(&self) -> usize
        ensures { result ≡ number self.now }
    {
        match self {
            Field::Kind => 1,
            Field::Header(n)
            | Field::Commodity(n)
            | Field::Month(n)
            | Field::Contract(n)
            | Field::Spread(n)
            | Field::CreditSpread(n)
            | Field::Class(n)
            | Field::Spot(n) => *n,
        }
    }

    // What it tells. Of a value of a contract's array and of a field of a leg `part` says which one.
    fn name(&self) -> &'static str
        ensures { result.now ≡ name self.now }
    {
        match self {
            Field::Kind => "kind of record",
            Field::Header(n) => name_or(&["version"], *n, "name"),
            Field::Commodity(n) => name_or(&["commodity"], *n, "charge"),
            Field::Month(n) => name_or(&["commodity", "month"], *n, "tier"),
            Field::Contract(n) => name_or(&CONTRACT, *n, "loss in scenario"),
            Field::Spread(n) => name_or(&SPREAD, *n, "charge"),
            Field::CreditSpread(2) => "rate",
            Field::CreditSpread(n) => leg_name(n % 3),
            Field::Class(n) => name_or(&["class", "price"], *n, "haircut"),
            Field::Spot(n) => name_or(&["commodity", "tier", "spread rate"], *n, "outright rate"),
        }
    }

    // Which value of a contract's array, or which leg of a spread, it is of.
    fn part(&self) -> Option<usize>
        ensures { result ≡ part self.now }
    {
        match self {
            Field::Contract(n) if *n >= 9 => Some(n - 8),
            Field::CreditSpread(n) if *n >= 3 => Some(n / 3),
            _ => None,
        }
    }
}

const CONTRACT: [&str; 7] = [
    "contract",
    "commodity",
    "month",
    "kind",
    "style",
    "delta",
    "value",
];

const SPREAD: [&str; 5] = [
    "commodity",
    "first tier",
    "first ratio",
    "second tier",
    "second ratio",
];

// The name of the field of a number, from 2 on, or that of all others.
fn name_or(names: &[&'static str], number: usize, others: &'static str) -> &'static str
    ensures { result.now ≡ name_or (map (λ s. s.now) names.now) number others.now }
{
    match names.get(number.saturating_sub(2)) {
        Some(name) => name,
        None => others,
    }
}

// What a field of a leg tells, by what is left of its number where it is divided by 3.
fn leg_name(rest: usize) -> &'static str
    ensures { result.now ≡ leg_name rest }
{
    match rest {
        0 => "commodity of leg",
        1 => "side of leg",
        _ => "ratio of leg",
    }
}

impl fmt::Display for Field {
    ghost output = { λ field. Some (field_words field) };

    fn fmt<W: fmt::Write>(&self, f: &mut fmt::Formatter<W>) -> fmt::Result {
        write!(f, "field {} ({}", self.number(), self.name())?;
        if let Some(part) = self.part() {
            write!(f, " {part}")?;
        }
        f.write_str(")")
    }
}
