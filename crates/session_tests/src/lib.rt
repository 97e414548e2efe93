//! Tests of lines, replies and sessions, over devices in memory.
#![tactic(auto)]

#[cfg(test)]
mod lines;
#[cfg(test)]
mod replies;
#[cfg(test)]
mod session;
