ghost use Rattle.std.specs.Prelude.{◌≡◌, ◌≤◌, ◌^◌, unsigned_abs};
ghost use Rattle.mgn_ids.specs.Amounts.{quantity_in, premium_in, units_in};

use crate::fault::IdFault;
use mgn_num::{Quantity, read_signed, read_unsigned};
use std::marker::Model;

/// How many contracts a command trades, holds or moves: 1 to 1,000,000 in size, above 0 bought and below 0 sold.
/// Contracts see the number.
#[derive(Clone, Copy, PartialEq, Eq, Debug)]
pub struct LotQuantity {
    contracts: i32,
}

impl Model for LotQuantity {
    ghost use Rattle.std.specs.Prelude.{ℤ};
    ghost use Rattle.mgn_ids.specs.Amounts.{IsLotQuantity};

    ghost Value = { ℤ };

    ghost view = { λ q. q.contracts };

    ghost invariant = { λ q. IsLotQuantity q.contracts };

    ghost inverse = { λ z. record { contracts = z } };
}

impl LotQuantity {
    ghost use Rattle.mgn_ids.specs.Amounts.{IsLotQuantity};

    /// The quantity that a word spells. `Syntax` where it spells no number, `Range` where it spells 0 or a number above
    /// 1,000,000 in size. Takes no memory.
    #[tactic(auto, unfolding(crate::specs::Amounts::quantity_in))]
    pub fn read(word: &[u8]) -> Result<LotQuantity, IdFault>
        ensures { result ≡ quantity_in word.now }
    {
        let contracts = read_signed(word, 1_000_000)?;
        if contracts == 0 {
            return Err(IdFault::Range);
        }
        Ok(LotQuantity {
            contracts: contracts as i32,
        })
    }

    /// The number of contracts.
    pub fn quantity(self) -> Quantity
        ensures value { result ≡ self }
        ensures limits { IsLotQuantity result }
    {
        Quantity::new(i64::from(self.contracts))
    }
}

/// The premium of a trade or the limit of an order, in cents for each contract: 0 to 10^8. Contracts see the number.
#[derive(Clone, Copy, PartialEq, Eq, PartialOrd, Ord, Debug)]
pub struct Premium {
    cents: u32,
}

impl Model for Premium {
    ghost use Rattle.std.specs.Prelude.{ℕ, ◌≤◌, ◌^◌};

    ghost Value = { ℕ };

    ghost view = { λ p. p.cents };

    ghost invariant = { λ p. p.cents ≤ 10 ^ 8 };

    ghost inverse = { λ n. record { cents = n } };
}

impl Premium {
    /// The premium that a word spells. `Syntax` where it spells no number, `Range` where it spells another than 0 to
    /// 10^8. Takes no memory.
    #[tactic(auto, unfolding(crate::specs::Amounts::premium_in))]
    pub fn read(word: &[u8]) -> Result<Premium, IdFault>
        ensures { result ≡ premium_in word.now }
    {
        let cents = read_unsigned(word, 0, 100_000_000)?;
        Ok(Premium {
            cents: cents as u32,
        })
    }

    /// The number of cents.
    pub fn cents(self) -> u32
        ensures value { result ≡ self }
        ensures small { result ≤ 10 ^ 8 }
    {
        self.cents
    }
}

/// How much is posted or drawn: units of a collateral class, or cents of cash, 1 to 10^15. Contracts see the number.
#[derive(Clone, Copy, PartialEq, Eq, PartialOrd, Ord, Debug)]
pub struct Units {
    number: u64,
}

impl Model for Units {
    ghost use Rattle.std.specs.Prelude.{ℕ};
    ghost use Rattle.mgn_ids.specs.Amounts.{IsUnits};

    ghost Value = { ℕ };

    ghost view = { λ u. u.number };

    ghost invariant = { λ u. IsUnits u.number };

    ghost inverse = { λ n. record { number = n } };
}

impl Units {
    ghost use Rattle.mgn_ids.specs.Amounts.{IsUnits};

    /// The units that a word spells. `Syntax` where it spells no number, `Range` where it spells another than 1 to
    /// 10^15. Takes no memory.
    #[tactic(auto, unfolding(crate::specs::Amounts::units_in))]
    pub fn read(word: &[u8]) -> Result<Units, IdFault>
        ensures { result ≡ units_in word.now }
    {
        let number = read_unsigned(word, 1, 1_000_000_000_000_000)?;
        Ok(Units { number })
    }

    /// The number of units or cents.
    pub fn number(self) -> u64
        ensures value { result ≡ self }
        ensures limits { IsUnits result }
    {
        self.number
    }
}
