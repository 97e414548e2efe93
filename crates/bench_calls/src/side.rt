ghost use Rattle.std.specs.Prelude.{◌≡◌, unsigned_abs};

use mgn_num::Quantity;

/// A contract bought, or sold.
pub fn one_contract(is_bought: bool) -> Quantity
    ensures { unsigned_abs result ≡ 1 }
{
    Quantity::new(if is_bought { 1 } else { -1 })
}
