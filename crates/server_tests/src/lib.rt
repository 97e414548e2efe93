//! Tests of the server, over executors that refuse and over a book, with clients over connections in the same process.
#![tactic(auto)]

#[cfg(test)]
mod book;
#[cfg(test)]
mod client;
#[cfg(test)]
mod fakes;
#[cfg(test)]
mod server;
