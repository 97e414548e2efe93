//! Tests of the calculation, of what is kept while nets change, and of both beside one another. The sets are the worked
//! ones; the figures were worked out by hand.
#![tactic(auto)]

#[cfg(test)]
mod credits;
#[cfg(test)]
mod desks;
#[cfg(test)]
mod figures;
#[cfg(test)]
mod options;
#[cfg(test)]
mod running;
#[cfg(test)]
mod scan;
#[cfg(test)]
mod sets;
#[cfg(test)]
mod tiers;
