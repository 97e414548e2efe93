//! A write-once slot for each place of a history, and what shows which value the slot of a place was given.
#![tactic(auto)]

mod slots;
mod stamps;

pub use slots::{SlotNames, Slots};
pub use stamps::{Stamp, Stamps};
