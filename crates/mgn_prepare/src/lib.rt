//! What all margin units require under a set that is to come into force, worked out by many workers or by one.
#![tactic(auto)]

mod alone;
mod marker;
mod marks;

pub use alone::mark_alone;
pub use marks::{UnitGate, mark_all};
