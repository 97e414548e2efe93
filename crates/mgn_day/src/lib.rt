//! What a stamp shows of a day, and since which entry of its history each margin unit has the same nets under the same
//! set. It knows no book: what a day has is seen as a book is, whoever keeps it.
#![tactic(auto)]

mod copies;
mod gathered;
pub mod places;
mod shows;

pub use copies::{UnitCopy, copies_of, whole_nets};
pub use gathered::{Gathered, late_units};
pub use shows::Shows;
