//! Tests of sessions that share a book, on one thread and on several.
#![tactic(auto)]

#[cfg(test)]
mod broken;
#[cfg(test)]
mod seats;
#[cfg(test)]
mod sessions;
