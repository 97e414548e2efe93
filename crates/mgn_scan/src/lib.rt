//! The scan figures of the commodities of a set, kept up to date while nets change.
#![tactic(auto)]

mod row;
mod totals;

pub use mgn_span::scan::ScanRisks;
pub use row::ScanRow;
pub use totals::ScanTotals;
