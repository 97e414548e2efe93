//! Credits of spreads between commodities, kept under changes of the commodities' net deltas and price risks.
#![tactic(auto)]

mod commodity_numbers;
mod gathered;
mod inter;
mod naming;
mod numbers;
mod reworked;
mod rows;
mod spread_state;

pub use inter::InterCredits;
pub use naming::spread_at;
pub use reworked::Reworked;
