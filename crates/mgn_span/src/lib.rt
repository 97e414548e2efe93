//! The margin calculation as definitions, after CME SPAN: positions, scan risk, deltas, spreads within and between
//! commodities, spot month charges, option minimums and values, and the requirement. Beside them stands the arithmetic
//! that each way of working them out calls.
#![tactic(auto)]

mod delta;
pub mod legs;
pub mod scan;
pub mod shares;
pub mod spot;
pub mod spreads;
mod stage;
mod stages;
mod total;

pub use delta::{Delta, delta_at};
pub use stage::Stage;
pub use total::Total;
