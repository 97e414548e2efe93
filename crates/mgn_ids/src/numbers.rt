ghost use Rattle.std.specs.Prelude.{◌≡◌, ◌≤◌, ◌^◌, IfOk};
ghost use Rattle.mgn_ids.specs.Number.{number_in};

use crate::fault::IdFault;
use mgn_num::read_unsigned;
use std::marker::Model;

// The number from 1 to 10^12 that a word spells.
#[tactic(auto, unfolding(crate::specs::Number::number_in))]
fn read_number(word: &[u8]) -> Result<u64, IdFault>
    ensures value { result ≡ number_in word.now }
    ensures low { IfOk result (λ n. 1 ≤ n) }
    ensures high { IfOk result (λ n. n ≤ 10 ^ 12) }
{
    Ok(read_unsigned(word, 1, 1_000_000_000_000)?)
}

/// The number of a lot, within its account: 1 to 10^12. Contracts see the number.
#[derive(Clone, Copy, PartialEq, Eq, PartialOrd, Ord, Hash, Debug)]
pub struct LotId {
    number: u64,
}

impl Model for LotId {
    ghost use Rattle.std.specs.Prelude.{ℕ};
    ghost use Rattle.mgn_ids.specs.Number.{IsIdNumber};

    ghost Value = { ℕ };

    ghost view = { λ i. i.number };

    ghost invariant = { λ i. IsIdNumber i.number };

    ghost inverse = { λ n. record { number = n } };
}

impl LotId {
    ghost use Rattle.mgn_ids.specs.Number.{IsIdNumber};

    // The lot of this number.
    pub(crate) fn new(number: u64) -> Self
        requires { IsIdNumber number }
        ensures { result ≡ number }
    {
        LotId { number }
    }

    /// The number that a word spells. `Syntax` where it spells none, `Range` where it is another than 1 to 10^12.
    /// Takes no memory.
    pub fn read(word: &[u8]) -> Result<LotId, IdFault>
        ensures { result ≡ number_in word.now }
    {
        let number = read_number(word)?;
        Ok(LotId { number })
    }

    /// The number.
    pub fn number(self) -> u64
        ensures value { result ≡ self }
        ensures small { IsIdNumber result }
    {
        self.number
    }
}

/// The number of an order that is held, within its account: 1 to 10^12. Contracts see the number.
#[derive(Clone, Copy, PartialEq, Eq, PartialOrd, Ord, Hash, Debug)]
pub struct OrderId {
    number: u64,
}

impl Model for OrderId {
    ghost use Rattle.std.specs.Prelude.{ℕ};
    ghost use Rattle.mgn_ids.specs.Number.{IsIdNumber};

    ghost Value = { ℕ };

    ghost view = { λ i. i.number };

    ghost invariant = { λ i. IsIdNumber i.number };

    ghost inverse = { λ n. record { number = n } };
}

impl OrderId {
    ghost use Rattle.mgn_ids.specs.Number.{IsIdNumber};

    // The order of this number.
    pub(crate) fn new(number: u64) -> Self
        requires { IsIdNumber number }
        ensures { result ≡ number }
    {
        OrderId { number }
    }

    /// The number that a word spells. `Syntax` where it spells none, `Range` where it is another than 1 to 10^12.
    /// Takes no memory.
    pub fn read(word: &[u8]) -> Result<OrderId, IdFault>
        ensures { result ≡ number_in word.now }
    {
        let number = read_number(word)?;
        Ok(OrderId { number })
    }

    /// The number.
    pub fn number(self) -> u64
        ensures value { result ≡ self }
        ensures small { IsIdNumber result }
    {
        self.number
    }
}

/// How many sessions a day has at most.
pub const MOST_SESSIONS: u8 = 16;

/// The number of a session, 1 to 16. Contracts see the number.
#[derive(Clone, Copy, PartialEq, Eq, PartialOrd, Ord, Hash, Debug)]
pub struct SessionNo {
    number: u8,
}

impl Model for SessionNo {
    ghost use Rattle.std.specs.Prelude.{ℕ};
    ghost use Rattle.mgn_ids.specs.Number.{IsSessionNumber};

    ghost Value = { ℕ };

    ghost view = { λ n. n.number };

    ghost invariant = { λ n. IsSessionNumber n.number };

    ghost inverse = { λ n. record { number = n } };
}

impl SessionNo {
    ghost use Rattle.mgn_ids.specs.Number.{IsSessionNumber};

    /// The number as what it counts.
    pub fn new(number: u8) -> Self
        requires { IsSessionNumber number }
        ensures { result ≡ number }
    {
        SessionNo { number }
    }

    /// The number.
    pub fn number(self) -> u8
        ensures value { result ≡ self }
        ensures small { IsSessionNumber result }
    {
        self.number
    }
}
