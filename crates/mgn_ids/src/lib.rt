//! Names and numbers by which commands and parameter sets speak of accounts, contracts, lots and the like.
#![tactic(auto)]

pub mod amounts;
pub mod fault;
pub mod name;
pub mod names;
pub mod numbers;
pub mod places;
pub mod short_id;

pub use amounts::{LotQuantity, Premium, Units};
pub use fault::IdFault;
pub use names::{AccountName, ClassName, CommodityName, ContractName, OriginName, SetName};
pub use numbers::{LotId, MOST_SESSIONS, OrderId, SessionNo};
pub use places::Places;
pub use short_id::ShortId;
