//! Tests on threads: which types may cross them, and sessions that call one service at the same time.
#![tactic(auto)]

#[cfg(test)]
mod crossing;
#[cfg(test)]
mod lent;
#[cfg(test)]
mod meeting;
#[cfg(test)]
mod player;
#[cfg(test)]
mod sessions;
