ghost use Rattle.std.specs.Prelude.{◌≡◌, length};
ghost use Rattle.mgn_ledger.specs.Passes.{fresh, transcript};

use crate::image::Image;
use crate::known_orders::KnownOrders;
use crate::known_units::KnownUnits;
use mgn_ids::{AccountName, OrderId, SessionNo};
use mgn_machine::Hold;
use mgn_slots::{SlotNames, Stamp};
use std::marker::Model;

/// A session of a service: its number, how many of its calls have a place, and what shows the day up to the last of
/// them. It takes no memory for its calls. Contracts see the number, and the sets and the history up to that call, so
/// its calls with their places.
#[derive(Drop)]
pub struct Pass<'a, T: Image, J: SlotNames> {
    pub(crate) session: SessionNo,
    pub(crate) count: u64,
    pub(crate) last: Option<Stamp<'a, T, J>>,
    units: KnownUnits,
    orders: KnownOrders,
}

impl<'a, T: Image, J: SlotNames> Model for Pass<'a, T, J> {
    ghost use Rattle.mgn_ledger.specs.Passes.{IsPass, PassView, pass_view};

    ghost Value = { PassView };

    ghost view = { λ p. pass_view T.shown p.session p.last };

    ghost invariant = { λ p. IsPass T.shown p.session p.count p.last };
}

impl<'a, T: Image, J: SlotNames> Pass<'a, T, J> {
    // A pass that has made no call.
    pub(crate) fn new(session: SessionNo) -> Pass<'a, T, J>
        ensures { result ≡ fresh session }
    {
        Pass {
            session,
            count: 0,
            last: None,
            units: KnownUnits::new(),
            orders: KnownOrders::new(),
        }
    }

    /// The number of its session, 1 to 16.
    pub fn session(&self) -> SessionNo
        ensures { result ≡ self.now.session }
    {
        self.session
    }

    /// How many of its calls have a place in the history.
    pub fn calls(&self) -> u64
        ensures { result ≡ length (transcript self.now) }
    {
        self.count
    }

    /// The unit of an account that a call of the session named lately. An account's unit never changes.
    pub fn known_unit(&self, account: &AccountName) -> Option<usize> {
        self.units.get(account)
    }

    /// Keeps the unit of an account for later calls of the session, which then need not look it up.
    pub fn keep_unit(&mut self, account: AccountName, unit: usize)
        ensures { self.new ≡ self.old }
    {
        self.units.keep(account, unit);
    }

    /// An order of an account that a call of the session held lately, as it was held.
    pub fn known_order(&self, account: &AccountName, order: OrderId) -> Option<Hold> {
        self.orders.get(account, order)
    }

    /// Keeps an order for later calls of the session, which can then tell before they look what its release or fill
    /// changes.
    pub fn keep_order(&mut self, hold: &Hold)
        ensures { self.new ≡ self.old }
    {
        self.orders.keep(hold);
    }
}
