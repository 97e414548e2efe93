//! A book that sessions on threads of their own share: each command goes by desks under locks of their units, and holds
//! the book's lock for its steps alone.
#![tactic(auto)]

mod commits;
mod looks;
mod orders;
mod pairs;
mod prepared;
mod service;
mod transfers;
mod units;
mod waits;

pub use mgn_unit_desk::{
    Gate, Marking, Point, SessionGate, Sight, Through, UnitDesk, UnitMove, Workers,
};
pub use service::Service;
