//! Why a file is no parameter set.

ghost use Rattle.std.specs.Prelude.{◌≡◌, Some};
ghost use Rattle.mgn_setfile.specs.Words.{sentence};

use crate::detail::Detail;
use crate::place::Field;
use crate::words::words_of;
use std::fmt;
use thiserror::Error;

/// What is wrong with a record. A record's cause is the first of these that applies, `Memory` apart; of `Name`, `Number`
/// and `Range` it is that of the leftmost field with one, and a missing leg comes after these.
#[derive(Clone, Copy, PartialEq, Eq, Debug)]
pub enum Cause {
    /// The first record is no header of version 1 or 2, a later one is a header, or there is no record.
    Header,
    /// No kind of record of this version, a wrong number of fields, two records in one line, or an intercommodity
    /// spread without a leg on each side.
    Fields,
    /// A field is not spelled as a name, or is none of the letters of its place.
    Name,
    /// A field is not spelled as a number.
    Number,
    /// A name of more than 16 bytes, a number outside its limits, a future in premium style, or a contract of the
    /// other style with a value.
    Range,
    /// A commodity, or a month of its commodity, that no earlier record gives.
    Unknown,
    /// A commodity, month, contract, class or spot charge given before, the class CASH, or a commodity twice in one
    /// intercommodity spread.
    Double,
    /// One row more than a table may have.
    Limit,
    /// A growth was refused.
    Memory,
}

/// What is wrong with a record: its first cause, and the field that has it, where it is one field's alone.
#[derive(Clone, Copy, PartialEq, Eq, Debug)]
pub(crate) struct RecordFault {
    pub field: Option<Field>,
    pub cause: Cause,
}

impl RecordFault {
    ghost use Rattle.mgn_setfile.specs.Fields.{at, whole};

    // The fault of a field.
    pub(crate) fn at(field: Field, cause: Cause) -> RecordFault
        ensures { result ≡ at field cause }
    {
        RecordFault {
            field: Some(field),
            cause,
        }
    }

    // The fault of a whole record.
    pub(crate) fn whole(cause: Cause) -> RecordFault
        ensures { result ≡ whole cause }
    {
        RecordFault { field: None, cause }
    }
}

/// The first faulty record of a file, and what is wrong with it.
#[derive(Clone, Copy, PartialEq, Eq, Debug, Error)]
pub struct SetFault {
    /// The number of the record among the file's records, from 1. Lines without a record are not counted.
    pub number: u64,
    /// The number of the line that has it, from 1; 1 where the file has no record.
    pub line: u64,
    /// The field that has the cause. `None` where the record as a whole has it: a header that is none or stands after
    /// the first record, a wrong number of fields, a second record in the line, a spread without a leg on each side,
    /// and a table that is full.
    pub field: Option<Field>,
    /// The first cause.
    pub cause: Cause,
    /// What is wrong with the fields as a whole, where the cause is `Fields` and no field has it.
    pub detail: Option<Detail>,
}

impl fmt::Display for SetFault {
    ghost output = { λ fault. Some (sentence fault) };

    fn fmt<W: fmt::Write>(&self, f: &mut fmt::Formatter<W>) -> fmt::Result {
        write!(f, "record {}", self.number)?;
        if self.line != self.number {
            write!(f, ", line {}", self.line)?;
        }
        if let Some(field) = self.field {
            write!(f, ", {field}")?;
        }
        match self.detail {
            Some(detail) => write!(f, ": {detail}"),
            None => write!(f, ": {}", words_of(self.cause, self.field)),
        }
    }
}
