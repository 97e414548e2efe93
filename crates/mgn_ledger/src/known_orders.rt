//! Orders that a session has held.

ghost use Rattle.std.specs.Prelude.{◌<◌};

use mgn_ids::{AccountName, OrderId};
use mgn_machine::Hold;

// How many are kept at most.
const PLACES: usize = 64;

/// Orders as they were held, each at a place that its number gives, until another one takes that place. Nothing rests
/// on them but time: whether an order is held still, and how much of it, each call asks the book.
#[derive(Clone, Copy)]
pub(crate) struct KnownOrders {
    places: [Option<Hold>; PLACES],
}

// The place of an order.
fn place_of(order: OrderId) -> usize
    ensures { result < 64 }
{
    (order.number() % 64) as usize
}

impl KnownOrders {
    /// None. Takes no memory.
    pub(crate) fn new() -> KnownOrders {
        KnownOrders {
            places: [None; PLACES],
        }
    }

    /// An order of an account as it was held, if it is kept.
    pub(crate) fn get(&self, account: &AccountName, order: OrderId) -> Option<Hold> {
        match &self.places[place_of(order)] {
            Some(hold) if hold.order == order && hold.account == *account => Some(*hold),
            _ => None,
        }
    }

    /// Keeps an order.
    pub(crate) fn keep(&mut self, hold: &Hold) {
        self.places[place_of(hold.order)] = Some(*hold);
    }
}
