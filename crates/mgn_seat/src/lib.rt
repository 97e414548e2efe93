//! Seats: sessions of a service, as executors of lines.
#![tactic(auto)]

mod seat;
mod switches;

pub use seat::Seat;
pub use switches::{Alone, Switches};
