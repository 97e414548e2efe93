//! Sessions: the bytes that go out are the replies to the lines that come in.
#![tactic(auto)]

pub mod conversation;
pub mod counted;
mod ends;
pub mod exec;
pub mod fault;
mod line_buffer;
pub mod run;
pub mod source;

pub use conversation::Conversation;
pub use counted::Counted;
pub use exec::Exec;
pub use fault::SessionFault;
pub use run::run_lines;
pub use source::{NoFiles, SetSource, SourceFault};
