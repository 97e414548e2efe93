//! Tests of accounts, rows, the book, new sets and scripts over worked sets, which they read from their texts.
#![tactic(auto)]

#[cfg(test)]
mod account;
#[cfg(test)]
mod change;
#[cfg(test)]
mod day;
#[cfg(test)]
mod random;
#[cfg(test)]
mod row;
#[cfg(test)]
mod script;
#[cfg(test)]
mod sessions;
#[cfg(test)]
mod shared;
#[cfg(test)]
mod shelved;
