ghost use Rattle.std.specs.Prelude.{◌≡◌, ◌≤◌, ◌^◌};
ghost use Rattle.mgn_coll.specs.Posted.{is_cash, is_known, most_of, class_value};
ghost use Rattle.mgn_params.specs.Limits.{IsClass};

use mgn_ids::ClassName;
use mgn_num::mul_div_floor;
use mgn_params::{Class, ParamSet};

/// The most cents of cash that an account may have posted.
pub const MOST_CASH: u64 = 1_000_000_000_000_000;

/// The most units of a class that an account may have posted.
pub const MOST_CLASS_UNITS: u64 = 1_000_000_000;

/// Whether a name is that of cash.
pub fn is_cash(class: &ClassName) -> bool
    ensures { result ≡ is_cash class.now }
{
    class.as_bytes() == b"CASH".as_slice()
}

/// Whether a name is that of cash or of a class of a set.
pub fn is_known(set: &ParamSet, class: &ClassName) -> bool
    ensures { result ≡ is_known set.now.classes class.now }
{
    is_cash(class) || set.class(*class).is_some()
}

/// The most that may be posted by a name: cents of cash, or units.
pub fn most_of(class: &ClassName) -> u64
    ensures { result ≡ most_of class.now }
{
    if is_cash(class) {
        MOST_CASH
    } else {
        MOST_CLASS_UNITS
    }
}

/// The value of units of a class in cents: their price less the haircut, rounded down.
pub fn class_value(class: &Class, units: u64) -> u64
    requires limits { IsClass class.now }
    requires units { units ≤ 10 ^ 9 }
    ensures value { result ≡ class_value class.now units }
    ensures small { result ≤ 10 ^ 17 }
{
    let price = u128::from(units) * u128::from(class.price);
    let kept = u128::from(10_000 - class.haircut);
    mul_div_floor(price, kept, 10_000) as u64
}
