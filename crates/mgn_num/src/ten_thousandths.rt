ghost use Rattle.std.specs.Prelude.{◌≡◌, ◌≤◌, ◌+◌, ◌++◌, ◌^◌, ◌<ℤ◌, ◌+ℤ◌, ◌-ℤ◌, ◌*ℤ◌, pos, unsigned_abs, IsTrue, IsOk, ◌↔◌, OnOk, OnErr, length, vec_capacity};
ghost use Rattle.std.specs.Fmt.{signed_decimal};
ghost use Rattle.mgn_num.specs.Reading.{number_of};

use crate::quantity::Quantity;
use crate::reading::{NumFault, read_number};
use itoa::Buffer;
use std::alloc::AllocError;
use std::marker::Model;

/// A signed number of ten-thousandths, at most 10^36 in size: a delta, a ratio, a rate, a number of spreads.
/// Contracts see the number of ten-thousandths.
#[derive(Clone, Copy, PartialEq, Eq, PartialOrd, Ord, Debug)]
pub struct TenThousandths {
    parts: i128,
}

impl Model for TenThousandths {
    ghost use Rattle.std.specs.Prelude.{ℤ};
    ghost use Rattle.mgn_num.specs.Amount.{IsAmount};

    ghost Value = { ℤ };

    ghost view = { λ t. t.parts };

    ghost invariant = { λ t. IsAmount t.parts };

    ghost inverse = { λ z. record { parts = z } };
}

impl TenThousandths {
    ghost use Rattle.mgn_num.specs.Amount.{IsAmount, nearer_zero};

    /// None.
    pub const ZERO: TenThousandths = TenThousandths { parts: 0 };

    /// A number of ten-thousandths.
    pub fn new(parts: i128) -> Self
        requires { IsAmount parts }
        ensures { result ≡ parts }
    {
        TenThousandths { parts }
    }

    /// The number of ten-thousandths.
    pub fn parts(self) -> i128
        ensures value { result ≡ self }
        ensures small { IsAmount result }
    {
        self.parts
    }

    /// The sum of two.
    pub fn plus(self, other: TenThousandths) -> TenThousandths
        requires { IsAmount (self +ℤ other) }
        ensures { result ≡ self +ℤ other }
    {
        TenThousandths {
            parts: self.parts + other.parts,
        }
    }

    /// A quantity of contracts at a scaled delta for each.
    pub fn product(quantity: Quantity, each: i64) -> TenThousandths
        ensures { result ≡ quantity *ℤ each }
    {
        TenThousandths {
            parts: i128::from(quantity.contracts()) * i128::from(each),
        }
    }

    /// The number without its sign.
    pub fn size(self) -> u128
        ensures value { result ≡ unsigned_abs self }
        ensures small { result ≤ 10 ^ 36 }
    {
        self.parts.unsigned_abs()
    }

    /// The number brought nearer to 0, where it stops.
    pub fn nearer_zero(self, by: u128) -> TenThousandths
        ensures { result ≡ nearer_zero self by }
    {
        let by = by.min(self.size()) as i128;
        let parts = if self.parts < 0 {
            self.parts + by
        } else {
            self.parts - by
        };
        TenThousandths { parts }
    }

    /// Whether it is above 0.
    pub fn is_positive(self) -> bool
        ensures { IsTrue result ↔ (pos 0 <ℤ self) }
    {
        0 < self.parts
    }

    /// Whether it is below 0.
    pub fn is_negative(self) -> bool
        ensures { IsTrue result ↔ (self <ℤ pos 0) }
    {
        self.parts < 0
    }

    /// The number that a text spells: `0`, or an optional `-`, a digit 1 to 9 and any further digits. `Syntax` where it
    /// is spelled otherwise, `Range` where it is above 10^36 in size. Takes no memory.
    pub fn parse(text: &[u8]) -> Result<TenThousandths, NumFault>
        ensures { result ≡ number_of text.now }
    {
        let number = read_number(text)?;
        Ok(TenThousandths { parts: number })
    }

    /// Appends the number's text, as `parse` reads it, at most 38 bytes. At an error nothing is appended; where there is
    /// room for 38 bytes there is none.
    #[tactic(auto, using(crate::proofs::TextLemmas::signed_decimal_short))]
    pub fn print(self, out: &mut Vec<u8>) -> Result<(), AllocError>
        ensures ok { OnOk result (out.new.items ≡ out.old.items ++ signed_decimal self) }
        ensures err { OnErr result (out.new.items ≡ out.old.items) }
        ensures room { length out.old.items + 38 ≤ vec_capacity out.old → IsOk result }
        ensures longer { OnOk result (length out.new.items ≤ length out.old.items + 38) }
        ensures capacity { vec_capacity out.old ≤ vec_capacity out.new }
    {
        let mut buffer = Buffer::new();
        out.extend_from_slice(buffer.format(self.parts).as_bytes())
    }
}
