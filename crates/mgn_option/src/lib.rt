//! The short option minimums and the net option value of a set, kept up to date while nets change.
#![tactic(auto)]

mod minimum;
mod sums;
mod value;

pub use minimum::Minimum;
pub use sums::OptionSums;
pub use value::OptionValue;
