ghost use Rattle.std.specs.Prelude.{◌≡◌, ◌≤◌, unsigned_abs};

use mgn_ids::{ContractName, ShortId};
use mgn_num::Quantity;

/// How a lot came, and whether it still counts.
#[derive(Clone, Copy, PartialEq, Eq, Debug)]
pub enum Mark {
    /// By a trade or a fill.
    Traded,
    /// By a transfer between accounts. Such a lot cannot be busted.
    Moved,
    /// It was a traded lot and was undone. It counts for nothing, but its number stays taken.
    Busted,
}

impl Mark {
    ghost use Rattle.mgn_lots.specs.Lots.{is_live};

    /// Whether a lot of this mark counts.
    pub fn is_live(self) -> bool
        ensures { result ≡ is_live self }
    {
        match self {
            Mark::Traded | Mark::Moved => true,
            Mark::Busted => false,
        }
    }
}

/// A quantity of one contract that was entered at one premium.
#[derive(Clone, Copy)]
pub struct Lot {
    /// Its number, used once in an account.
    pub number: ShortId,
    /// The contract by its name, since a later set of parameters may number its contracts otherwise.
    pub contract: ContractName,
    pub mark: Mark,
    /// 1 to 1,000,000 contracts in size, above 0 bought and below 0 sold.
    pub quantity: Quantity,
    /// Cents for each contract, 0 to 10^8.
    pub premium: u32,
}

const _: () = prove!(size_of::<Lot>() == 32);

impl Lot {
    ghost use Rattle.mgn_lots.specs.Lots.{live_quantity, lot_share};

    /// The quantity for which the lot counts, in contracts: 0 where it is busted.
    pub fn live_quantity(&self) -> Quantity
        ensures { result ≡ live_quantity self.now }
    {
        if self.mark.is_live() {
            self.quantity
        } else {
            Quantity::ZERO
        }
    }

    // The quantity for which it counts in a contract: 0 where it is of another one, or busted.
    pub(crate) fn share(&self, contract: &ContractName) -> Quantity
        ensures share { result ≡ lot_share contract.now self.now }
        ensures small { unsigned_abs result ≤ unsigned_abs self.now.quantity }
    {
        if &self.contract == contract {
            self.live_quantity()
        } else {
            Quantity::ZERO
        }
    }
}
