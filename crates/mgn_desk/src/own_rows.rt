ghost use Rattle.std.specs.Prelude.{◌≡◌, is_some};

use crate::commodity_row::CommodityRow;
use crate::portfolio::Portfolio;

/// The rows of one commodity that the branches have of their own; none where the lots' row is a branch's too.
#[derive(Clone, Copy)]
pub(crate) struct OwnRows {
    pub buys: Option<CommodityRow>,
    pub sales: Option<CommodityRow>,
    pub all: Option<CommodityRow>,
}

impl OwnRows {
    ghost use Rattle.mgn_desk.specs.UnitLists.{lent, own_of};

    /// Each branch has the lots' row.
    pub const NONE: OwnRows = OwnRows {
        buys: None,
        sales: None,
        all: None,
    };

    /// The row that a portfolio has of its own; the lots' row counts as none.
    pub fn of(&self, portfolio: Portfolio) -> Option<&CommodityRow>
        ensures { lent result ≡ own_of portfolio self.now }
    {
        match portfolio {
            Portfolio::Lots => None,
            Portfolio::WithBuys => self.buys.as_ref(),
            Portfolio::WithSales => self.sales.as_ref(),
            Portfolio::WithAll => self.all.as_ref(),
        }
    }
}
