ghost use Rattle.std.specs.Prelude.{◌≡◌};

use mgn_ids::{ContractName, OrderId};
use mgn_num::Quantity;

/// What is held for an order that waits to be filled.
#[derive(Clone, Copy)]
pub struct Held {
    /// The order's number, which one hold of an account has at a time.
    pub order: OrderId,
    /// The contract by its name, since a later set of parameters may number its contracts otherwise.
    pub contract: ContractName,
    /// What is still held: 1 to 1,000,000 contracts in size, above 0 to be bought and below 0 to be sold.
    pub quantity: Quantity,
    /// Cents for each contract, 0 to 10^8: the most that it pays if it buys, the least that it takes if it sells.
    pub limit: u32,
}

impl Held {
    ghost use Rattle.mgn_holds.specs.Holds.{meets_limit, covers};

    /// Whether a premium, in cents for each contract, is within the limit: no more than it if the hold buys, no less if
    /// it sells.
    pub fn meets_limit(&self, premium: u32) -> bool
        ensures { result ≡ meets_limit self.now premium }
    {
        if self.quantity.is_long() {
            premium <= self.limit
        } else {
            self.limit <= premium
        }
    }

    /// Whether the hold covers a quantity: it has the hold's sign and is no larger than what is held.
    pub fn covers(&self, quantity: Quantity) -> bool
        ensures { result ≡ covers self.now quantity }
    {
        let wanted = quantity.contracts();
        let there = self.quantity.contracts();
        if self.quantity.is_long() {
            0 < wanted && wanted <= there
        } else {
            wanted < 0 && there <= wanted
        }
    }
}
