use mgn_nets::{Nets, Portfolios};
use mgn_num::Cents;

/// One portfolio of a margin unit.
#[derive(Drop)]
pub struct PortfolioRow {
    /// One net for each contract of the set in force.
    pub nets: Nets,
    /// What is there for it, its holds counted as filled at their limits.
    pub worth: Cents,
    /// What it must have deposited.
    pub requirement: Cents,
}

/// The four portfolios of a margin unit, and how much of each contract its live lots and holds come to in size.
#[derive(Drop)]
pub struct Row {
    /// For each contract of the set in force the sum of the sizes of live lots and holds.
    pub sizes: Nets,
    /// The lots.
    pub lots: PortfolioRow,
    /// The lots and the held buys.
    pub buys: PortfolioRow,
    /// The lots and the held sales.
    pub sales: PortfolioRow,
    /// The lots and all holds.
    pub all: PortfolioRow,
}

/// What the nets of a portfolio require under a set, worked out before that set comes into force.
#[derive(Drop)]
pub struct PreparedPortfolio {
    /// One net for each contract of the set.
    pub nets: Nets,
    /// What they require.
    pub requirement: Cents,
}

/// Nets for which it was worked out what they require under a set.
#[derive(Clone, Copy)]
pub(crate) struct PricedNets<'a> {
    pub nets: &'a Nets,
    pub requirement: Cents,
}

/// What the four portfolios of a margin unit require under a set, worked out before that set comes into force.
pub type PreparedUnit = Portfolios<PreparedPortfolio>;

/// The requirements of the four portfolios of a margin unit, in cents.
pub type Priced = Portfolios<Cents>;

/// A copy of the nets of the four portfolios of a margin unit, one for each contract of a set.
pub type CopiedNets = Portfolios<Nets>;
