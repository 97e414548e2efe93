ghost use Rattle.std.specs.Prelude.{◌≡◌, ◌≤◌, ◌+◌, ◌++◌, ◌^◌, ◌<ℤ◌, ◌≤ℤ◌, ◌+ℤ◌, ◌-ℤ◌, ◌*ℤ◌, pos, neg_ℤ, unsigned_abs, IsTrue, IsOk, ◌↔◌, OnOk, OnErr, length, vec_capacity};
ghost use Rattle.std.specs.Int.{int_max};
ghost use Rattle.std.specs.Fmt.{signed_decimal};
ghost use Rattle.mgn_num.specs.Reading.{number_of};

use crate::quantity::Quantity;
use crate::reading::{NumFault, read_number};
use itoa::Buffer;
use std::alloc::AllocError;
use std::marker::Model;

/// A signed amount of money in whole cents, at most 10^36 in size. Contracts see the number.
#[derive(Clone, Copy, PartialEq, Eq, PartialOrd, Ord, Debug)]
pub struct Cents {
    amount: i128,
}

impl Model for Cents {
    ghost use Rattle.std.specs.Prelude.{ℤ};
    ghost use Rattle.mgn_num.specs.Amount.{IsAmount};

    ghost Value = { ℤ };

    ghost view = { λ c. c.amount };

    ghost invariant = { λ c. IsAmount c.amount };

    ghost inverse = { λ z. record { amount = z } };
}

impl Cents {
    ghost use Rattle.mgn_num.specs.Amount.{IsAmount};

    /// No money.
    pub const ZERO: Cents = Cents { amount: 0 };

    /// An amount of cents.
    pub fn new(amount: i128) -> Self
        requires { IsAmount amount }
        ensures { result ≡ amount }
    {
        Cents { amount }
    }

    /// The amount as a number of cents.
    pub fn amount(self) -> i128
        ensures value { result ≡ self }
        ensures small { IsAmount result }
    {
        self.amount
    }

    /// The sum of two amounts.
    pub fn plus(self, other: Cents) -> Cents
        requires { IsAmount (self +ℤ other) }
        ensures { result ≡ self +ℤ other }
    {
        Cents {
            amount: self.amount + other.amount,
        }
    }

    /// The amount less another.
    pub fn minus(self, other: Cents) -> Cents
        requires { IsAmount (self -ℤ other) }
        ensures { result ≡ self -ℤ other }
    {
        Cents {
            amount: self.amount - other.amount,
        }
    }

    /// The amount with the other sign.
    pub fn negated(self) -> Cents
        ensures { result ≡ neg_ℤ self }
    {
        Cents {
            amount: -self.amount,
        }
    }

    /// A quantity of contracts at an amount for each: at most 10^9 contracts at 10^18 cents.
    pub fn product(quantity: Quantity, each: i64) -> Cents
        ensures { result ≡ quantity *ℤ each }
    {
        Cents {
            amount: i128::from(quantity.contracts()) * i128::from(each),
        }
    }

    /// The amount, or 0 where it is negative.
    pub fn or_zero(self) -> Cents
        ensures { result ≡ int_max (pos 0) self }
    {
        if self.amount < 0 {
            Cents { amount: 0 }
        } else {
            self
        }
    }

    /// The larger of two amounts.
    pub fn larger(self, other: Cents) -> Cents
        ensures { result ≡ int_max self other }
    {
        if self.amount < other.amount {
            other
        } else {
            self
        }
    }

    /// The amount without its sign.
    pub fn size(self) -> u128
        ensures value { result ≡ unsigned_abs self }
        ensures small { result ≤ 10 ^ 36 }
    {
        self.amount.unsigned_abs()
    }

    /// Whether the amount is above another.
    pub fn is_above(self, other: Cents) -> bool
        ensures { IsTrue result ↔ (other <ℤ self) }
    {
        other.amount < self.amount
    }

    /// The amount that a text spells: `0`, or an optional `-`, a digit 1 to 9 and any further digits. `Syntax` where it
    /// is spelled otherwise, `Range` where the number is above 10^36 in size. Takes no memory.
    pub fn parse(text: &[u8]) -> Result<Cents, NumFault>
        ensures { result ≡ number_of text.now }
    {
        let number = read_number(text)?;
        Ok(Cents { amount: number })
    }

    /// Appends the amount's text, as `parse` reads it, at most 38 bytes. At an error nothing is appended; where there is
    /// room for 38 bytes there is none.
    #[tactic(auto, using(crate::proofs::TextLemmas::signed_decimal_short))]
    pub fn print(self, out: &mut Vec<u8>) -> Result<(), AllocError>
        ensures ok { OnOk result (out.new.items ≡ out.old.items ++ signed_decimal self) }
        ensures err { OnErr result (out.new.items ≡ out.old.items) }
        ensures room { length out.old.items + 38 ≤ vec_capacity out.old → IsOk result }
        ensures longer { OnOk result (length out.new.items ≤ length out.old.items + 38) }
        ensures capacity { vec_capacity out.old ≤ vec_capacity out.new }
    {
        let mut buffer = Buffer::new();
        out.extend_from_slice(buffer.format(self.amount).as_bytes())
    }
}
