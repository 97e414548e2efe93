//! The sets of a day in a table that threads share: which set stands under a version, for the book, whose shelf it is, and for
//! those who look at a set while they have no lock.
#![tactic(auto)]

mod names;
mod shelf;
mod tokens;

pub use names::TableName;
pub use shelf::TableShelf;
pub use tokens::{Seen, SetTable, Tokens};
