//! The desk of a margin unit under a lock of its own, what a call knows of the unit before that desk moves, and what is
//! worked out for a switch before its commit. It knows no book and no ledger: which day a desk is of, stamps show.
#![tactic(auto)]

mod foreseen;
mod gate;
mod prepared;
mod sight;
mod unit_desk;
mod workers;

pub use gate::{Gate, Point, SessionGate, Through};
pub use prepared::Prepared;
pub use sight::{Sight, UnitMove};
pub use unit_desk::UnitDesk;
pub use workers::{Marking, Workers};
