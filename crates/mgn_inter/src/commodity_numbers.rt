use mgn_span::Delta;

/// What is kept of a commodity, side by side, since a change reads and writes most of it.
#[derive(Clone, Copy)]
pub(crate) struct CommodityNumbers {
    // The net delta, in ten-thousandths.
    pub delta: Delta,
    // Twice the price risk, in cents.
    pub risk: u64,
    // The rest of the net delta behind the last spread at which it moved, in ten-thousandths.
    pub rest: Delta,
    // What spreads credit, in cents.
    pub credit: u128,
}

impl CommodityNumbers {
    pub const NOTHING: CommodityNumbers = CommodityNumbers {
        delta: Delta::ZERO,
        risk: 0,
        rest: Delta::ZERO,
        credit: 0,
    };
}
