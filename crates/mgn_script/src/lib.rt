//! Scripts: a book of one session that answers lines of commands.
#![tactic(auto)]

mod by_desks;
pub mod plain;
pub mod script;

pub use plain::Plain;
pub use script::run_script;
