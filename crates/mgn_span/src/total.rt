//! The total of a scenario, in the 64 bits that the limits of a set let it have.

ghost use Rattle.std.specs.Prelude.{◌≡◌, ◌*◌, ◌≤◌, ◌^◌, ◌<ℤ◌, ◌+ℤ◌, ◌*ℤ◌, unsigned_abs, IsTrue, ◌↔◌};

use mgn_num::{Cents, Quantity};
use std::marker::Model;

/// The total of a scenario in whole cents. It is at most 256 * 10^15 in size: the 256 contracts of a commodity, each
/// held 10,000,000 times at 10^8 cents. Contracts see the number.
#[derive(Clone, Copy)]
pub struct Total {
    cents: i64,
}

impl Model for Total {
    ghost use Rattle.std.specs.Prelude.{ℤ};
    ghost use Rattle.mgn_span.specs.Sizes.{IsTotal};

    ghost Value = { ℤ };

    ghost view = { λ t. t.cents };

    ghost invariant = { λ t. IsTotal t.cents };

    ghost inverse = { λ z. record { cents = z } };
}

// A quantity of a contract at an array's value.
#[tactic(auto, using(crate::proofs::ProductLemmas::product_small))]
fn product(quantity: Quantity, value: &i32) -> i64
    requires quantity { unsigned_abs quantity ≤ 2 * 10 ^ 7 }
    requires value { unsigned_abs value.now ≤ 10 ^ 8 }
    ensures product { result ≡ quantity *ℤ value.now }
    ensures small { unsigned_abs result ≤ 2 * 10 ^ 15 }
{
    quantity.contracts() * i64::from(*value)
}

impl Total {
    ghost use Rattle.mgn_span.specs.Sizes.{IsTotal};

    /// A total of 0.
    pub const ZERO: Total = Total { cents: 0 };

    /// The total with a quantity of a contract at an array's value more.
    pub fn plus_scaled(self, quantity: Quantity, value: &i32) -> Total
        requires quantity { unsigned_abs quantity ≤ 2 * 10 ^ 7 }
        requires value { unsigned_abs value.now ≤ 10 ^ 8 }
        requires total { IsTotal (self +ℤ quantity *ℤ value.now) }
        ensures { result ≡ self +ℤ quantity *ℤ value.now }
    {
        Total {
            cents: self.cents + product(quantity, value),
        }
    }

    /// The number of cents.
    pub fn cents(self) -> Cents
        ensures value { result ≡ self }
        ensures small { IsTotal result }
    {
        Cents::new(i128::from(self.cents))
    }

    /// Whether it is larger than another.
    pub fn is_above(self, other: Total) -> bool
        ensures { IsTrue result ↔ (other <ℤ self) }
    {
        other.cents < self.cents
    }
}
