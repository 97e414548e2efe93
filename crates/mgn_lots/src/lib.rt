//! The lots of an account: a list in order of entry, in which a lot is found by its number without a walk.
#![tactic(auto)]

pub mod lot;
pub mod lots;
mod numbers;
pub mod transfer;

pub use lot::{Lot, Mark};
pub use lots::{Lots, MOST_LOTS};
pub use transfer::add_both;
