//! The holds of an account: orders that wait to be filled, and what each of them covers.
#![tactic(auto)]

pub mod held;
pub mod holds;
mod places;
pub mod side;

pub use held::Held;
pub use holds::{Holds, MOST_HOLDS};
pub use side::Side;
