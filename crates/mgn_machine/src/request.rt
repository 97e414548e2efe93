use crate::command::Command;
use mgn_params::{ParamSet, Version};

/// What a session asks of the book.
#[derive(Drop)]
pub enum Request {
    /// A command, under the set in force.
    Do(Command),
    /// `SWITCH`: another set comes into force.
    Switch(ParamSet),
}

/// A request as the history keeps it.
#[derive(Drop)]
pub enum Recorded {
    /// A command.
    Asked(Command),
    /// A set that came into force, by the version that shows it.
    InForce(Version),
    /// A set that was refused.
    SetRefused(ParamSet),
}
