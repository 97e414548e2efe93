ghost use Rattle.std.specs.Prelude.{◌≡◌, ◌≤◌, ◌^◌, ◌<ℤ◌, ◌+ℤ◌, pos, neg_ℤ, unsigned_abs, IsTrue, ◌↔◌};

use std::marker::Model;

/// A signed number of contracts, at most 10^9 in size: above 0 bought or long, below 0 sold or short.
/// Contracts see the number.
#[derive(Clone, Copy, PartialEq, Eq, PartialOrd, Ord, Debug)]
pub struct Quantity {
    contracts: i32,
}

impl Model for Quantity {
    ghost use Rattle.std.specs.Prelude.{ℤ};
    ghost use Rattle.mgn_num.specs.Amount.{IsQuantity};

    ghost Value = { ℤ };

    ghost view = { λ q. q.contracts };

    ghost invariant = { λ q. IsQuantity q.contracts };

    ghost inverse = { λ z. record { contracts = z } };
}

impl Quantity {
    ghost use Rattle.mgn_num.specs.Amount.{IsQuantity};

    /// No contract.
    pub const ZERO: Quantity = Quantity { contracts: 0 };

    /// A number of contracts.
    pub fn new(contracts: i64) -> Self
        requires { IsQuantity contracts }
        ensures { result ≡ contracts }
    {
        Quantity {
            contracts: contracts as i32,
        }
    }

    /// The number of contracts.
    pub fn contracts(self) -> i64
        ensures value { result ≡ self }
        ensures small { IsQuantity result }
    {
        i64::from(self.contracts)
    }

    /// The sum of two quantities.
    pub fn plus(self, other: Quantity) -> Quantity
        requires { IsQuantity (self +ℤ other) }
        ensures { result ≡ self +ℤ other }
    {
        Quantity {
            contracts: self.contracts + other.contracts,
        }
    }

    /// The quantity with the other sign.
    pub fn negated(self) -> Quantity
        ensures { result ≡ neg_ℤ self }
    {
        Quantity {
            contracts: -self.contracts,
        }
    }

    /// The number of contracts without its sign.
    pub fn size(self) -> u64
        ensures value { result ≡ unsigned_abs self }
        ensures small { result ≤ 10 ^ 9 }
    {
        u64::from(self.contracts.unsigned_abs())
    }

    /// Whether it is bought or long.
    pub fn is_long(self) -> bool
        ensures { IsTrue result ↔ (pos 0 <ℤ self) }
    {
        0 < self.contracts
    }

    /// Whether it is sold or short.
    pub fn is_short(self) -> bool
        ensures { IsTrue result ↔ (self <ℤ pos 0) }
    {
        self.contracts < 0
    }
}
