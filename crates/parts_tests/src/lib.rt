//! Tests of what the book is made of: numbers, names, lots, holds, collateral, answers and nets, each on plain values.
#![tactic(auto)]

#[cfg(test)]
mod collateral;
#[cfg(test)]
mod holds;
#[cfg(test)]
mod ids;
#[cfg(test)]
mod lots;
#[cfg(test)]
mod machine;
#[cfg(test)]
mod num;
#[cfg(test)]
mod unit;
