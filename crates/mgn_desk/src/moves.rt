ghost use Rattle.std.specs.Prelude.{◌≡◌};

use crate::portfolio::Portfolio;
use mgn_num::Quantity;

/// The place of a contract, and how many more of it each portfolio of a margin unit holds, below 0 where it holds
/// fewer.
#[derive(Clone, Copy, PartialEq, Eq, Debug)]
pub struct Moves {
    pub contract: usize,
    pub lots: Quantity,
    pub buys: Quantity,
    pub sales: Quantity,
    pub all: Quantity,
}

impl Moves {
    ghost use Rattle.mgn_desk.specs.Portfolios.{opposite};
    ghost use Rattle.mgn_desk.specs.UnitLists.{moves_alike, moves_of_one, quantity_of};

    // As much more of a contract in each portfolio.
    pub(crate) fn alike(contract: usize, quantity: Quantity) -> Moves
        ensures { result ≡ moves_alike contract quantity }
    {
        Moves {
            contract,
            lots: quantity,
            buys: quantity,
            sales: quantity,
            all: quantity,
        }
    }

    // So much more of a contract in one portfolio alone.
    pub(crate) fn of_one(portfolio: Portfolio, contract: usize, quantity: Quantity) -> Moves
        ensures { result ≡ moves_of_one portfolio contract quantity }
    {
        let mut moves = Moves::alike(contract, Quantity::ZERO);
        match portfolio {
            Portfolio::Lots => moves.lots = quantity,
            Portfolio::WithBuys => moves.buys = quantity,
            Portfolio::WithSales => moves.sales = quantity,
            Portfolio::WithAll => moves.all = quantity,
        }
        moves
    }

    // How many more a portfolio holds.
    pub(crate) fn of(&self, portfolio: Portfolio) -> Quantity
        ensures { result ≡ quantity_of portfolio self.now }
    {
        match portfolio {
            Portfolio::Lots => self.lots,
            Portfolio::WithBuys => self.buys,
            Portfolio::WithSales => self.sales,
            Portfolio::WithAll => self.all,
        }
    }

    /// The opposite moves, which take these back.
    pub fn opposite(&self) -> Moves
        ensures { result ≡ opposite self.now }
    {
        Moves {
            contract: self.contract,
            lots: self.lots.negated(),
            buys: self.buys.negated(),
            sales: self.sales.negated(),
            all: self.all.negated(),
        }
    }
}
