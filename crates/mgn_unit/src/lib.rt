//! Margin units as the book keeps them: accounts, the rows of the four portfolios of a unit, and what a command changes
//! in them, and rows under another set.
#![tactic(auto)]

mod account;
mod amounts;
mod change;
mod holding;
mod new_set;
mod prepared;
mod prepared_units;
mod row;
mod rows;
mod transfer;
mod worth_change;

pub use account::Account;
pub use amounts::{Amounts, NewRows, UnitAmounts};
pub use change::{Change, Gain};
pub use holding::filling_at_limit_keeps_room;
pub use new_set::{Switch, has_all_contracts};
pub use prepared::is_unit_covered;
pub use prepared_units::PreparedUnits;
pub use row::{CopiedNets, PortfolioRow, PreparedPortfolio, PreparedUnit, Priced, Row};
pub use transfer::add_both;
pub use worth_change::WorthChange;
