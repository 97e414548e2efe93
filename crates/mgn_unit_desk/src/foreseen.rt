//! What a call knows of its command's unit before it looks at the book, by a desk in step.

ghost use Rattle.std.specs.Prelude.{ℕ, ◌≡◌, ◌≤◌, ◌^◌, ◌+ℤ◌, unsigned_abs, All, IfSome, IsTrue, None, Some};
ghost use Rattle.mgn_params.specs.Tables.{Tables};
ghost use Rattle.mgn_span.specs.Positions.{IsNet};
ghost use Rattle.mgn_holds.specs.Holds.{IsHeld};
ghost use Rattle.mgn_unit.specs.Rows.{IsChange};
ghost use Rattle.mgn_desk.specs.Desks.{CanMoveMarked, IsMarkedBy};
ghost use Rattle.mgn_pricing.specs.Desks.{moves_of};

use crate::sight::{Sight, UnitMove};
use crate::unit_desk::UnitDesk;
use mgn_day::Shows;
use mgn_desk::Desk;
use mgn_holds::Held;
use mgn_machine::{Command, Hold};
use mgn_num::Quantity;
use mgn_params::ParamSet;
use mgn_slots::SlotNames;
use mgn_unit::Change;

/// How large a net may be.
const LARGEST_NET: u64 = 10_000_000;

// What is held of an order that is whole.
fn held_of(hold: &Hold) -> Held
    ensures { IsHeld result }
{
    Held {
        order: hold.order,
        contract: hold.contract,
        quantity: hold.quantity.quantity(),
        limit: hold.limit.cents(),
    }
}

// What a trade, an order to be held, or the release or the fill of this order changes in the row of its unit, where the
// set has its contract. Of any other command the book alone can tell.
fn change_by(set: &ParamSet, command: &Command, order: &Option<Hold>) -> Option<Change>
    ensures { IfSome result (IsChange set.now) }
{
    match command {
        Command::Trade(trade) => {
            let contract = set.contract(trade.contract)?;
            Some(Change::of_lot(contract, trade.quantity, trade.premium))
        }
        Command::Hold(hold) => {
            let contract = set.contract(hold.contract)?;
            Some(Change::of_hold(contract, hold.quantity, hold.limit))
        }
        Command::Release(..) => {
            let hold = (*order)?;
            let contract = set.contract(hold.contract)?;
            Some(Change::of_release(contract, &held_of(&hold)))
        }
        Command::Fill(fill) => {
            let hold = (*order)?;
            let contract = set.contract(hold.contract)?;
            Some(Change::of_fill(contract, fill.quantity, hold.limit.cents(), fill.premium))
        }
        _ => None,
    }
}

// Whether a net stays within its limit with a quantity more.
fn stays_within(net: Quantity, quantity: Quantity) -> bool
    requires net { IsNet net }
    requires quantity { unsigned_abs quantity ≤ 10 ^ 7 }
    ensures { IsTrue result → IsNet (net +ℤ quantity) }
{
    net.plus(quantity).size() <= LARGEST_NET
}

// Whether the nets of a marked desk stay within their limits by a change.
fn can_follow(desk: &Desk, change: &Change) -> bool
    requires { (set : Tables) × IsMarkedBy set desk.now.marked × IsChange set change.now }
    ensures { IsTrue result → CanMoveMarked (moves_of change.now) desk.now.marked }
{
    let nets = desk.nets_at(change.contract);
    stays_within(nets.lots, change.lots.quantity)
        && stays_within(nets.buys, change.buys.quantity)
        && stays_within(nets.sales, change.sales.quantity)
        && stays_within(nets.all, change.all.quantity)
}

impl<'a, T: Shows, J: SlotNames> UnitDesk<'a, T, J> {
    /// What a look at a command of this unit will find, as long as nothing else has changed there since the desk's
    /// stamp: a call then need not look before its desk moves, and its commit looks once for both. Given the order that
    /// the command releases or fills, as it was held, if that is known. None where the book alone can tell.
    pub fn foreseen(&self, command: &Command, order: &Option<Hold>) -> Option<Sight<'a, T, J>>
        ensures unit { IfSome result (λ sight. sight.0.unit ≡ self.now.0.unit) }
        ensures has { IfSome result (λ sight. self.now.1 ≡ Some sight.1.0) }
    {
        let (Some(stamp), Some(set), Some(version)) = (&self.at, self.set, self.desk.version())
        else {
            return None;
        };
        let change = change_by(set, command, order)?;
        if !can_follow(&self.desk, &change) {
            return None;
        }
        let seen = UnitMove {
            unit: self.desk.unit(),
            change,
        };
        Some(Sight::new(seen, version, set, stamp.again(), None))
    }
}
