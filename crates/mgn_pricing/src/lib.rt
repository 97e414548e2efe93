//! What the units of a command's plan require once it is done, by desks that are kept in step with the rows of a book.
#![tactic(auto)]

mod desks;
mod given;

pub use desks::{Desks, is_of, moves_of};
pub use given::{is_one_older, known_by};
