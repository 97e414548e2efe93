//! Tests of what threads share below a service: the workers of a switch, and readers of the sets.
#![tactic(auto)]

#[cfg(test)]
mod marks;
#[cfg(test)]
mod table;
