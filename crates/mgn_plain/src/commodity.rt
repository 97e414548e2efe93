use mgn_num::Cents;

/// The figures of a commodity, in whole cents.
#[derive(Clone, Copy, PartialEq, Eq, Debug)]
pub struct CommodityFigures {
    /// The scan risk, at least 0: the largest total of the 16 scenarios (CME SPAN).
    pub scan: Cents,
    /// The place of the active scenario, 0 to 15: its number less 1. It is the lowest of those with the largest total.
    pub active: usize,
    /// Twice the price risk, at least 0.
    pub price_risk2: Cents,
    /// What intracommodity spreads charge (CME SPAN).
    pub intra: Cents,
    /// The spot month charge, 0 where the commodity has none.
    pub spot: Cents,
    /// What intercommodity spreads credit.
    pub credit: Cents,
    /// The short option minimum (CME SPAN).
    pub minimum: Cents,
    /// Scan risk and charges less the credit, and at least the minimum (CME SPAN).
    pub risk: Cents,
}
