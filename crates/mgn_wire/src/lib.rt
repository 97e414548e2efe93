//! Lines and replies: what a line of input asks for, and how an answer is written.
#![tactic(auto)]

pub mod fault;
pub mod line;
pub mod reply;
mod row;
pub mod statement;
mod words;

pub use fault::{LineFault, Memory};
pub use line::{Line, read_line};
pub use reply::{LONGEST_REPLY, LineReply, reply_text};
pub use statement::{line_count, statement_text};
