//! Parameter sets of the margin calculation: their tables, their limits, and the shelf on which the sets of a day stand.
#![tactic(auto)]

mod array;
mod commodity_rows;
mod kinds;
mod limits;
mod naming;
pub mod rows;
mod set;
mod shelf;
mod tables;
mod work;

pub use array::RiskArray;
pub use limits::{
    MOST_CLASSES, MOST_COMMODITIES, MOST_CONTRACTS, MOST_CONTRACTS_EACH, MOST_CREDIT_SPREADS,
    MOST_MONTHS, MOST_MONTHS_EACH, MOST_SETS, MOST_SPREADS, MOST_SPREADS_EACH,
};
pub use set::ParamSet;
pub use shelf::{PutFault, SetList, Shelf, Version, place_of_set, set_of};
pub use tables::{
    Class, Commodity, Contract, CreditSpread, Kind, Leg, LegSide, Month, SpotCharge, Spread, Style,
};
pub use work::Work;
