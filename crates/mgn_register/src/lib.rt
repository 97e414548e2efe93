//! The register: the machine's state with a row for each margin unit, and what each command does to them. It keeps no
//! history.
#![tactic(auto)]

mod changes;
mod holds;
mod known_rows;
mod origins;
mod plans;
mod register;
mod statements;
mod step_fault;
mod steps;
mod switch;
mod totals;
mod transfers;

pub use origins::MOST_UNITS;
pub use register::Register;
pub use step_fault::StepFault;
pub use steps::step;
