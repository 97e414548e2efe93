//! The book that the sessions of a service share, as it lies under its lock: with the sets that its versions show, a
//! stamp for each entry of its history, and passes that know their own calls.
#![tactic(auto)]

mod entered;
mod gathered;
mod image;
mod known_orders;
mod known_units;
mod ledger;
mod pass;

pub use entered::{AuditFault, Entered};
pub use image::{DayImage, Image};
pub use ledger::Ledger;
pub use mgn_day::Gathered;
pub use pass::Pass;
