//! How many rows the tables of a set may have, and how many sets a day.

/// How many commodities a set has at most.
pub const MOST_COMMODITIES: usize = 256;

/// How many months each commodity has at most.
pub const MOST_MONTHS_EACH: usize = 64;

/// How many months a set has at most.
pub const MOST_MONTHS: usize = MOST_COMMODITIES * MOST_MONTHS_EACH;

/// How many contracts a set has at most.
pub const MOST_CONTRACTS: usize = 4096;

/// How many contracts each commodity has at most.
pub const MOST_CONTRACTS_EACH: usize = 256;

/// How many spreads within it each commodity has at most.
pub const MOST_SPREADS_EACH: usize = 32;

/// How many spreads within a commodity a set has at most.
pub const MOST_SPREADS: usize = MOST_COMMODITIES * MOST_SPREADS_EACH;

/// How many spreads between commodities a set has at most.
pub const MOST_CREDIT_SPREADS: usize = 64;

/// How many collateral classes a set has at most.
pub const MOST_CLASSES: usize = 16;

/// How many sets a day has at most: the first, and those of 64 switches.
pub const MOST_SETS: usize = 65;
