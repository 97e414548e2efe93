//! Lists of which those rows, or those pages of 16 values, are kept that were written to.
#![tactic(auto)]

mod list;
mod pages;
mod places;
mod rows;

pub use list::SparseList;
pub use rows::SparseRows;
