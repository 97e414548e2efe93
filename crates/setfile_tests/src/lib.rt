//! Tests of the files of parameter sets, and of a shelf of sets.
#![tactic(auto)]

#[cfg(test)]
mod cuts;
#[cfg(test)]
mod ends;
#[cfg(test)]
mod faults;
#[cfg(test)]
mod quotes;
#[cfg(test)]
mod rows;
#[cfg(test)]
mod shelf;
#[cfg(test)]
mod texts;
#[cfg(test)]
mod told;
