//! The statement of an account, from the account and the row of its margin unit.
#![tactic(auto)]

mod build;
mod lines;

pub use build::statement;
