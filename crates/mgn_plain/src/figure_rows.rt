use crate::sums::Sums;
use mgn_rows::SparseRows;

// What the figures of the commodities are worked out from.
#[derive(Drop)]
pub(crate) struct FigureRows {
    // What the positions come to.
    pub sums: Sums,
    // What the legs of the commodities start with.
    pub starts: SparseRows<[u64; 16]>,
    // What intercommodity spreads credit to each commodity.
    pub credits: Vec<u128>,
}
