//! Tests of lists of steps over worked sets, which they read from their texts.
#![tactic(auto)]

#[cfg(test)]
mod commands;
#[cfg(test)]
mod drawing;
#[cfg(test)]
mod lists;
#[cfg(test)]
mod one_thread;
#[cfg(test)]
mod random;
