//! Spreading within commodities, kept under changes of the deltas of months: what intracommodity spreads and spot months
//! charge, and the net deltas.
#![tactic(auto)]

mod row;
mod rows;
mod run;
mod tiers;

pub use row::TierRow;
pub use tiers::TierStages;
