//! What a command changes in the rows of margin units.

use mgn_unit::{Change, Priced};

/// What a command changes in the row of a margin unit.
#[derive(Clone, Copy)]
pub struct UnitChange {
    /// The place of the account whose lots or holds change.
    pub account: usize,
    /// The unit's number.
    pub unit: usize,
    /// What changes in its row, in one contract.
    pub change: Change,
}

/// What a command changes in the rows of margin units.
#[derive(Clone, Copy)]
pub enum Plan {
    /// Nothing, or no portfolio.
    Nothing,
    /// One row.
    One(UnitChange),
    /// The rows of two units, those of the giver and the taker of a transfer.
    Two(UnitChange, UnitChange),
}

/// What the units of a plan require once it is done, in its order, where that is known before.
#[derive(Clone, Copy)]
pub struct Known {
    pub first: Option<Priced>,
    pub second: Option<Priced>,
}

impl Known {
    /// Nothing is known: what is required is worked out.
    pub const NOTHING: Known = Known {
        first: None,
        second: None,
    };
}
