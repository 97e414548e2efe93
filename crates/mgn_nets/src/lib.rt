//! The nets of margin units: one quantity for each contract of a set, of which those are kept that are held.
#![tactic(auto)]

mod nets;
mod page_set;
mod pages;
mod portfolios;

pub use nets::Nets;
pub use portfolios::Portfolios;
