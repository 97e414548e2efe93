//! The delta of a month or of a commodity, in the 64 bits that the limits of a set let it have.

ghost use Rattle.std.specs.Prelude.{◌≡◌, ◌≤◌, ◌*◌, ◌^◌, ◌<◌, ◌<ℤ◌, ◌+ℤ◌, pos, unsigned_abs, length, IsTrue, not, ◌↔◌};
ghost use Rattle.std.specs.Ordering.{int_eq};
ghost use Rattle.mgn_span.specs.Deltas.{negative_part, positive_part};
ghost use Rattle.mgn_span.specs.Scan.{value_at};

use mgn_num::TenThousandths;
use std::marker::Model;

/// A delta of a month or of a commodity, or what spreads leave of it, in ten-thousandths, at most 2.56 * 10^14 in size.
/// Contracts see the number.
#[derive(Clone, Copy, PartialEq, Eq, Debug)]
pub struct Delta {
    parts: i64,
}

impl Model for Delta {
    ghost use Rattle.std.specs.Prelude.{ℤ};
    ghost use Rattle.mgn_span.specs.Sizes.{IsDelta};

    ghost Value = { ℤ };

    ghost view = { λ d. d.parts };

    ghost invariant = { λ d. IsDelta d.parts };

    ghost inverse = { λ z. record { parts = z } };
}

/// The delta at a place of a row.
pub fn delta_at(deltas: &[Delta], place: usize) -> Delta
    requires { place < length deltas.now }
    ensures { result ≡ value_at deltas.now place }
{
    deltas[place]
}

impl Delta {
    ghost use Rattle.mgn_span.specs.Sizes.{IsDelta};
    ghost use Rattle.mgn_num.specs.Amount.{nearer_zero};

    /// None.
    pub const ZERO: Delta = Delta { parts: 0 };

    /// The delta of so many ten-thousandths.
    pub fn new(delta: TenThousandths) -> Delta
        requires { IsDelta delta }
        ensures { result ≡ delta }
    {
        Delta {
            parts: delta.parts() as i64,
        }
    }

    /// The sum with a change.
    pub fn plus(self, change: TenThousandths) -> Delta
        requires { IsDelta (self +ℤ change) }
        ensures { result ≡ self +ℤ change }
    {
        Delta {
            parts: (i128::from(self.parts) + change.parts()) as i64,
        }
    }

    /// The number of ten-thousandths.
    pub fn ten_thousandths(self) -> TenThousandths
        ensures value { result ≡ self }
        ensures small { IsDelta result }
    {
        TenThousandths::new(i128::from(self.parts))
    }

    /// The number without its sign.
    pub fn size(self) -> u64
        ensures value { result ≡ unsigned_abs self }
        ensures small { result ≤ 256 * 10 ^ 12 }
    {
        self.parts.unsigned_abs()
    }

    /// The number, if it is above 0.
    pub fn long_part(self) -> u64
        ensures part { result ≡ positive_part self }
        ensures small { result ≤ 256 * 10 ^ 12 }
    {
        if 0 < self.parts { self.size() } else { 0 }
    }

    /// The size of the number, if it is below 0.
    pub fn short_part(self) -> u64
        ensures part { result ≡ negative_part self }
        ensures small { result ≤ 256 * 10 ^ 12 }
    {
        if self.parts < 0 { self.size() } else { 0 }
    }

    /// The number brought nearer to 0, where it stops.
    pub fn nearer_zero(self, by: u64) -> Delta
        ensures { result ≡ nearer_zero self by }
    {
        let by = by.min(self.size()) as i64;
        let parts = if self.parts < 0 {
            self.parts + by
        } else {
            self.parts - by
        };
        Delta { parts }
    }

    /// Whether it is another number.
    pub fn differs(self, other: Delta) -> bool
        ensures { result ≡ not (int_eq self other) }
    {
        self.parts != other.parts
    }

    /// Whether it is above 0.
    pub fn is_positive(self) -> bool
        ensures { IsTrue result ↔ (pos 0 <ℤ self) }
    {
        0 < self.parts
    }

    /// Whether it is below 0.
    pub fn is_negative(self) -> bool
        ensures { IsTrue result ↔ (self <ℤ pos 0) }
    {
        self.parts < 0
    }
}
