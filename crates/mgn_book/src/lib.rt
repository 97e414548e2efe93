//! The book: the machine's state with a row for each margin unit, and the history that made it.
#![tactic(auto)]

pub mod book;
mod by_desks;
mod history;
mod in_force;
mod known_switch;
pub mod laws;
mod names;
mod numbers;
mod replies;
mod stored;

pub use book::{Book, MOST_ENTRIES, Outcome};
pub use by_desks::Decision;
