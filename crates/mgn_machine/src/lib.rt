//! The machine of one thread: requests, replies, the state of the book, what is asked of it, and the definition of a
//! step.
#![tactic(auto)]

pub mod command;
pub mod commodity_lines;
pub mod entry;
pub mod origin;
pub mod reply;
pub mod request;
pub mod statement;

pub use command::{Command, Fill, Hold, Mode, Trade, Transfer};
pub use commodity_lines::CommodityLines;
pub use entry::{Entry, Item};
pub use origin::Origin;
pub use reply::{Answer, NewSet, Refusal, Reply, Totals, UnitFigures};
pub use request::{Recorded, Request};
pub use statement::{ClassLine, CommodityLine, Heading, SharedStatement, Statement};
