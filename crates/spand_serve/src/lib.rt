//! The server of the program: sessions over connections, which share the book of one service.
#![tactic(auto)]

mod day;
mod fault_lines;
mod marking;
mod start;

pub use day::{Serving, serve};
pub use fault_lines::FaultLines;
pub use marking::mark;
pub use start::{Clients, Writers, run};
