//! A server of sessions: each connection is a session on a thread of its own.
#![tactic(auto)]

mod place;
pub mod report;
pub mod seats;
mod server;
mod session;

pub use report::{ConnectionFault, FaultReport};
pub use seats::{Seats, Served};
