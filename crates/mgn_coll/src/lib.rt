//! The collateral of an account: posted cash, and units of the classes that a set prices.
#![tactic(auto)]

pub mod amounts;
pub mod collateral;

pub use amounts::{MOST_CASH, MOST_CLASS_UNITS, class_value, is_known, most_of};
pub use collateral::Collateral;
