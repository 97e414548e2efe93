ghost use Rattle.std.specs.Prelude.{◌≡◌, ◌+◌, ◌-◌, ◌*◌, ◌<◌, ◌≤◌, ◌^◌, pos, ◌+ℤ◌, ◌≤ℤ◌, unsigned_abs, length};
ghost use Rattle.mgn_span.specs.Positions.{IsNet};
ghost use Rattle.mgn_option.specs.Sums.{minimum_share};

use mgn_num::{Cents, Quantity};
use mgn_params::ParamSet;
use mgn_span::shares::share_of_minimum;
use std::marker::Model;

/// The short option minimum of a commodity in whole cents. It is at most 256 * 10^16: the 256 contracts of a commodity,
/// each sold 10,000,000 times at a charge of 10^9 cents. Contracts see the number.
#[derive(Clone, Copy)]
pub struct Minimum {
    cents: u64,
}

impl Model for Minimum {
    ghost use Rattle.std.specs.Prelude.{ℕ};
    ghost use Rattle.mgn_option.specs.Sums.{IsMinimum};

    ghost Value = { ℕ };

    ghost view = { λ m. m.cents };

    ghost invariant = { λ m. IsMinimum m.cents };

    ghost inverse = { λ n. record { cents = n } };
}

impl Minimum {
    ghost use Rattle.mgn_option.specs.Sums.{IsMinimum};

    /// The minimum of a commodity of which nothing is held.
    pub const ZERO: Minimum = Minimum { cents: 0 };

    /// Follows a change of the net of the contract at `i`, which is one of the commodity: a quantity more, bought above 0
    /// and sold below. What the net counts for then takes the place of what it counted for.
    pub fn follow(&mut self, set: &ParamSet, i: usize, net: Quantity, quantity: Quantity)
        requires contract { i < length set.now.contracts }
        requires net { IsNet net }
        requires changed { IsNet (net +ℤ quantity) }
        requires counted { minimum_share set.now i net ≤ self.old }
        requires small { IsMinimum (self.old - minimum_share set.now i net + minimum_share set.now i (net +ℤ quantity)) }
        ensures { self.new ≡ self.old - minimum_share set.now i net + minimum_share set.now i (net +ℤ quantity) }
    {
        set.limits();
        let contract = set.contract_at(i);
        let charge = &set.commodity_at(contract.commodity).short_option_charge;
        let before = share_of_minimum(contract, net, charge);
        let after = share_of_minimum(contract, net.plus(quantity), charge);
        self.cents = self.cents - before + after;
    }

    /// The minimum in cents, 0 to 256 * 10^16.
    pub fn cents(self) -> Cents
        ensures value { result ≡ pos self }
        ensures not_negative { pos 0 ≤ℤ result }
        ensures small { unsigned_abs result ≤ 256 * 10 ^ 16 }
    {
        Cents::new(i128::from(self.cents))
    }
}
