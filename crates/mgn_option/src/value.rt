ghost use Rattle.std.specs.Prelude.{◌≡◌, ◌*◌, ◌<◌, ◌≤◌, ◌^◌, ◌+ℤ◌, unsigned_abs, length};
ghost use Rattle.mgn_params.specs.Tables.{contract_at};
ghost use Rattle.mgn_span.specs.Words.{value_share};

use mgn_num::{Cents, Quantity};
use mgn_params::ParamSet;
use mgn_span::shares::share_of_value;
use std::marker::Model;

/// The net option value of nets in cents, at most 4,096 * 10^15 in size. Contracts see the number.
#[derive(Clone, Copy)]
pub struct OptionValue {
    cents: Cents,
}

impl Model for OptionValue {
    ghost use Rattle.std.specs.Prelude.{ℤ};
    ghost use Rattle.mgn_option.specs.Sums.{IsOptionValue};

    ghost Value = { ℤ };

    ghost view = { λ v. v.cents };

    ghost invariant = { λ v. IsOptionValue v.cents };

    ghost inverse = { λ z. record { cents = z } };
}

impl OptionValue {
    ghost use Rattle.mgn_option.specs.Sums.{IsOptionValue};

    /// The value of nets of 0.
    pub const ZERO: OptionValue = OptionValue { cents: Cents::ZERO };

    /// Follows a change of one net: a quantity more of the contract at `i`, bought above 0 and sold below.
    pub fn follow(&mut self, set: &ParamSet, i: usize, quantity: Quantity)
        requires contract { i < length set.now.contracts }
        requires small { IsOptionValue (self.old +ℤ value_share (contract_at set.now.contracts i, quantity)) }
        ensures { self.new ≡ self.old +ℤ value_share (contract_at set.now.contracts i, quantity) }
    {
        set.limits();
        self.cents = self
            .cents
            .plus(share_of_value(set.contract_at(i), quantity));
    }

    /// The value in cents.
    pub fn cents(self) -> Cents
        ensures value { result ≡ self }
        ensures small { unsigned_abs result ≤ 4096 * 10 ^ 15 }
    {
        self.cents
    }
}
