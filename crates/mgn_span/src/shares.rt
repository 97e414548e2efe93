//! What a position counts for in the option sums.

ghost use Rattle.std.specs.Prelude.{◌≡◌, ◌≤◌, ◌^◌};
ghost use Rattle.mgn_span.specs.Words.{short_share_of, value_share};
ghost use Rattle.mgn_span.specs.Positions.{IsNet};

use mgn_num::{Cents, Quantity};
use mgn_params::Contract;

/// What a net counts for in the short option minimum of its commodity, in cents, at a charge for each short option.
pub fn share_of_minimum(contract: &Contract, net: Quantity, charge: &u64) -> u64
    requires net { IsNet net }
    requires charge { charge.now ≤ 10 ^ 9 }
    ensures { result ≡ short_share_of contract.now.commodity charge.now (contract.now, net) }
{
    if net.is_short() && contract.kind.is_option() {
        net.size() * *charge
    } else {
        0
    }
}

/// What a quantity counts for in the net option value, in cents.
pub fn share_of_value(contract: &Contract, quantity: Quantity) -> Cents
    requires { contract.now.option_value ≤ 10 ^ 8 }
    ensures { result ≡ value_share (contract.now, quantity) }
{
    if contract.style.is_premium() {
        Cents::product(quantity, contract.option_value as i64)
    } else {
        Cents::ZERO
    }
}
