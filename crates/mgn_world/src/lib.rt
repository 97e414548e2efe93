//! The world of sessions whose steps interleave, and what holds of it after every list of steps.
#![tactic(auto)]

mod calls;
mod deciding;
mod gathering;
pub mod laws;
pub mod phases;
mod run;
mod state;
mod switches;
mod unit_desks;
mod units;

pub use run::World;
