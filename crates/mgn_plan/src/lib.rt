//! The plan of a command: what it changes in the rows of margin units, where nothing but want of room refuses it.
#![tactic(auto)]

mod plans;

pub use plans::{Known, Plan, UnitChange};
