//! The files of parameter sets: their records, and the set or the first fault of a file.
#![tactic(auto)]

mod body;
mod contracts;
mod credits;
mod detail;
mod draft;
mod fault;
mod fields;
mod file;
mod line;
mod place;
mod plain;
mod read;
mod records;
mod rows;
mod scan;
mod spreads;
mod words;

pub use detail::{Detail, RecordKind};
pub use draft::SetFile;
pub use fault::{Cause, SetFault};
pub use file::{read_file, read_set};
pub use place::Field;
