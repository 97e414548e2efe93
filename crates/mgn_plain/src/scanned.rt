use mgn_num::Cents;

// The scan risk of a commodity, its active scenario and twice its price risk.
#[derive(Clone, Copy)]
pub(crate) struct ScanFigures {
    pub scan: Cents,
    pub active: usize,
    pub price_risk2: Cents,
}
