//! Services at their limits: sixteen sessions on threads of their own call one as fast as they can, and a book of one
//! thread gives each of them the same replies; a history is filled to its end, and a table of sets.
#![tactic(auto)]

#[cfg(test)]
mod counts;
#[cfg(test)]
mod drawn;
#[cfg(test)]
mod full;
#[cfg(test)]
mod player;
#[cfg(test)]
mod replay;
#[cfg(test)]
mod sets;
#[cfg(test)]
mod stress;
#[cfg(test)]
mod text;
#[cfg(test)]
mod told;
