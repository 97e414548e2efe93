ghost use Rattle.std.specs.Prelude.{◌≡◌, ◌<◌, ◌↔◌, All, IsTrue};
ghost use Rattle.std.specs.List.Sorted.{IsStrictlyIncreasing};
ghost use Rattle.mgn_holds.specs.Holds.{orders_of, place_of_order};

use crate::held::Held;
use mgn_ids::OrderId;

// Whether an order is above those of all holds, which rise. Looks at the last one alone.
pub(crate) fn is_above(holds: &[Held], order: OrderId) -> bool
    requires { IsStrictlyIncreasing (orders_of holds.now) }
    ensures { IsTrue result ↔ All (λ x. x < order) (orders_of holds.now) }
{
    match holds.last() {
        Some(last) => last.order < order,
        None => true,
    }
}

// Where the hold of an order stands among holds whose orders rise. A new order is mostly above all of them, so that is
// tested first.
pub(crate) fn place_in_rising(holds: &[Held], order: OrderId) -> Option<usize>
    requires { IsStrictlyIncreasing (orders_of holds.now) }
    ensures { result ≡ place_of_order holds.now order }
{
    if is_above(holds, order) {
        return None;
    }
    holds.binary_search_by_key(&order, |held| held.order).ok()
}
