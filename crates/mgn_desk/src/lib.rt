//! The requirements of the four portfolios of a margin unit, kept while its nets change.
#![tactic(auto)]

mod branch;
mod bringing;
mod commodity_row;
mod desk;
mod figures;
mod moves;
mod own_rows;
mod portfolio;
mod risks;
mod step;
mod unit_lists;
mod unit_portfolios;

pub use desk::Desk;
pub use moves::Moves;
