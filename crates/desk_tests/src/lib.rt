//! Tests of a book that commits by desks.
#![tactic(auto)]

#[cfg(test)]
mod commits;
