//! By how much a command changes what is there for a portfolio, in the 64 bits that its limits let it have.

ghost use Rattle.std.specs.Prelude.{◌≡◌, ◌*◌, ◌≤◌, ◌^◌, ◌+ℤ◌, ◌*ℤ◌, neg_ℤ, pos, unsigned_abs};

use mgn_num::{Cents, Quantity};
use std::marker::Model;

/// By how much a command changes what is there for a portfolio, in whole cents: at most 2 * 10^14 in size, as a lot and
/// the hold that it fills are of at most 1,000,000 contracts at 10^8 cents each. Contracts see the number.
#[derive(Clone, Copy)]
pub struct WorthChange {
    cents: i64,
}

impl Model for WorthChange {
    ghost use Rattle.std.specs.Prelude.{ℤ};
    ghost use Rattle.mgn_unit.specs.Worths.{IsWorthChange};

    ghost Value = { ℤ };

    ghost view = { λ w. w.cents };

    ghost invariant = { λ w. IsWorthChange w.cents };

    ghost inverse = { λ z. record { cents = z } };
}

impl WorthChange {
    ghost use Rattle.mgn_unit.specs.Worths.{IsWorthChange};

    /// Nothing more and nothing less.
    pub const ZERO: WorthChange = WorthChange { cents: 0 };

    /// What a quantity is worth at an amount for each contract, in cents.
    pub fn of(quantity: Quantity, each: u32) -> WorthChange
        requires quantity { unsigned_abs quantity ≤ 10 ^ 6 }
        requires each { each ≤ 10 ^ 8 }
        ensures value { result ≡ quantity *ℤ pos each }
        ensures small { unsigned_abs result ≤ 10 ^ 14 }
    {
        let cents = Cents::product(quantity, i64::from(each)).amount();
        WorthChange {
            cents: cents as i64,
        }
    }

    /// As much the other way.
    pub fn negated(self) -> WorthChange
        ensures { result ≡ neg_ℤ self }
    {
        WorthChange { cents: -self.cents }
    }

    /// The sum of two changes.
    pub fn plus(self, other: WorthChange) -> WorthChange
        requires { IsWorthChange (self +ℤ other) }
        ensures { result ≡ self +ℤ other }
    {
        WorthChange {
            cents: self.cents + other.cents,
        }
    }

    /// The number of cents.
    pub fn cents(self) -> Cents
        ensures value { result ≡ self }
        ensures small { IsWorthChange result }
    {
        Cents::new(i128::from(self.cents))
    }
}
