//! The margin calculation of a list of nets, computed from scratch under a set.
#![tactic(auto)]

mod calculation;
mod charges;
mod commodity;
mod credits;
mod deltas;
mod figure_rows;
mod net_figures;
mod options;
mod parts;
mod rows;
mod scan;
mod scanned;
mod sums;
mod whole;

pub use calculation::{figures, requirement};
pub use commodity::CommodityFigures;
pub use net_figures::NetFigures;
pub use whole::Figures;
