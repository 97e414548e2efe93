ghost use Rattle.std.specs.Prelude.{◌≡◌};

use crate::numbers::{LotId, OrderId};
use std::marker::Model;

/// The number of a lot or of an order in five bytes, at any place in memory: what is kept in millions takes 3 bytes
/// less than with a [`LotId`]. Contracts see the number.
#[derive(Clone, Copy)]
pub struct ShortId {
    first: u8,
    second: u8,
    third: u8,
    fourth: u8,
    fifth: u8,
}

impl Model for ShortId {
    ghost use Rattle.std.specs.Prelude.{ℕ, ◌/◌, ◌%◌};
    ghost use Rattle.mgn_ids.specs.ShortIds.{IsShortId, short_id};

    ghost Value = { ℕ };

    ghost view = { λ n. short_id n.first n.second n.third n.fourth n.fifth };

    ghost invariant = { λ n. IsShortId n.first n.second n.third n.fourth n.fifth };

    ghost inverse = { λ n. record {
      first = n % 256;
      second = n / 256 % 256;
      third = n / 256 / 256 % 256;
      fourth = n / 256 / 256 / 256 % 256;
      fifth = n / 256 / 256 / 256 / 256;
    } };
}

impl ShortId {
    ghost use Rattle.mgn_ids.specs.Number.{IsIdNumber};

    fn new(number: u64) -> ShortId
        requires { IsIdNumber number }
        ensures { result ≡ number }
    {
        ShortId {
            first: (number % 256) as u8,
            second: (number / 256 % 256) as u8,
            third: (number / 256 / 256 % 256) as u8,
            fourth: (number / 256 / 256 / 256 % 256) as u8,
            fifth: (number / 256 / 256 / 256 / 256) as u8,
        }
    }

    /// The number.
    pub fn number(self) -> u64
        ensures value { result ≡ self }
        ensures small { IsIdNumber result }
    {
        let high = u64::from(self.fourth) + 256 * u64::from(self.fifth);
        let middle = u64::from(self.second) + 256 * (u64::from(self.third) + 256 * high);
        u64::from(self.first) + 256 * middle
    }

    /// The number of a lot.
    pub fn of_lot(lot: LotId) -> ShortId
        ensures { result ≡ lot }
    {
        ShortId::new(lot.number())
    }

    /// The number of an order.
    pub fn of_order(order: OrderId) -> ShortId
        ensures { result ≡ order }
    {
        ShortId::new(order.number())
    }

    /// The lot of this number.
    pub fn lot(self) -> LotId
        ensures { result ≡ self }
    {
        LotId::new(self.number())
    }

    /// The order of this number.
    pub fn order(self) -> OrderId
        ensures { result ≡ self }
    {
        OrderId::new(self.number())
    }
}
