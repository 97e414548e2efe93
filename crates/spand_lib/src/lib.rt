//! What the program does beside answering a session: the files of sets, the command `check`, faults and their exit
//! statuses. It stands on nothing of the book, so it is proved beside it.
#![tactic(auto)]

pub mod check;
mod fault;
mod set;

pub use fault::{Fault, name_of};
pub use set::{Folder, read};
