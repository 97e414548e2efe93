ghost use Rattle.std.specs.Prelude.{◌≡◌, ◌<◌, ◌≤◌, ◌^◌, ◌+ℤ◌, ◌*ℤ◌, neg_ℤ, pos, unsigned_abs, length, Bool, IfSome, OnOk, OnErr, true, false, if◌then◌else◌};
ghost use Rattle.mgn_lots.specs.Lots.{IsLot, has_number, is_full};
ghost use Rattle.mgn_holds.specs.Holds.{IsHeld, is_buy, hold_at, has_order, place_of_order, is_full as holds_full, covers};
ghost use Rattle.mgn_params.specs.Tables.{Tables};
ghost use Rattle.mgn_machine.specs.Holding.{with_hold, without_hold, with_fill};
ghost use Rattle.mgn_unit.specs.Changes.{held_change, hold_change, release_change, fill_change, gain};
ghost use Rattle.mgn_unit.specs.Rows.{lacks_room, lesser_room, row_with, IsRow, IsPortfolioRow, IsChange, IsGain, IsRoomy, Prices, PricesPortfolio, portfolio_room, portfolio_with, lesser};
ghost use Rattle.mgn_unit.specs.Laws.{FillAtLimitKeeps};

use crate::account::Account;
use crate::change::{Change, Gain};
use crate::row::{PortfolioRow, Priced, Row};
use crate::worth_change::WorthChange;
use mgn_holds::Held;
use mgn_ids::{LotId, LotQuantity, OrderId, Premium};
use mgn_lots::Lot;
use mgn_num::{Cents, Quantity};
use mgn_params::ParamSet;
use std::alloc::AllocError;

impl Account {
    /// Whether the account has a hold of an order.
    pub fn has_order(&self, order: OrderId) -> bool
        ensures { result ≡ has_order self.now.holds order }
    {
        self.holds.has(order)
    }

    /// Where the hold of an order stands among the account's holds.
    pub fn order_place(&self, order: OrderId) -> Option<usize>
        ensures place { result ≡ place_of_order self.now.holds order }
        ensures within { IfSome result (λ j. j < length self.now.holds) }
    {
        self.holds.place(order)
    }

    /// Whether the account has as many holds as it may have.
    pub fn holds_full(&self) -> bool
        ensures { result ≡ holds_full self.now.holds }
    {
        self.holds.is_full()
    }

    /// The hold at a place.
    pub fn hold_at(&self, place: usize) -> &Held
        requires { place < length self.now.holds }
        ensures held { result.now ≡ hold_at self.now.holds place }
        ensures limits { IsHeld result.now }
    {
        self.holds.at(place)
    }

    /// Adds a hold of a new order. Where memory is refused nothing has changed.
    pub fn add_hold(&mut self, held: &Held) -> Result<(), AllocError>
        requires limits { IsHeld held.now }
        requires fresh { has_order self.old.holds held.now.order ≡ false }
        requires room { holds_full self.old.holds ≡ false }
        ensures ok { OnOk result (self.new ≡ with_hold self.old held.now) }
        ensures err { OnErr result (self.new ≡ self.old) }
    {
        self.holds.add(held)
    }

    /// Takes the hold at a place away. Takes no memory.
    pub fn release(&mut self, place: usize)
        requires { place < length self.old.holds }
        ensures { self.new ≡ without_hold self.old place }
    {
        self.holds.release(place);
    }

    /// Adds a lot of a new number, and takes its quantity off the hold at a place. Where memory is refused nothing has
    /// changed.
    pub fn fill(&mut self, place: usize, lot: &Lot) -> Result<(), AllocError>
        requires within { place < length self.old.holds }
        requires covers { covers (hold_at self.old.holds place) lot.now.quantity ≡ true }
        requires limits { IsLot lot.now }
        requires fresh { has_number self.old.lots lot.now.number ≡ false }
        requires room { is_full self.old.lots ≡ false }
        ensures ok { OnOk result (self.new ≡ with_fill self.old place lot.now) }
        ensures err { OnErr result (self.new ≡ self.old) }
    {
        self.lots.add(lot)?;
        self.holds.fill(place, lot.quantity);
        Ok(())
    }
}

// Nothing gained.
const NOTHING: Gain = Gain {
    quantity: Quantity::ZERO,
    worth: WorthChange::ZERO,
};

impl Change {
    /// What a hold more changes: the portfolios that count it gain its quantity, and lose what it may cost.
    pub fn of_hold(contract: usize, quantity: LotQuantity, limit: Premium) -> Change
        ensures change { result ≡ hold_change contract quantity limit }
        ensures limits { (set : Tables) → contract < length set.contracts → IsChange set result }
    {
        let quantity = quantity.quantity();
        let own = Gain {
            quantity,
            worth: WorthChange::of(quantity, limit.cents()).negated(),
        };
        held_change(contract, size(quantity), is_buy(quantity), &NOTHING, &own)
    }

    /// What a hold less changes: the portfolios that counted it lose its quantity, and gain what it might have cost.
    pub fn of_release(contract: usize, held: &Held) -> Change
        requires { IsHeld held.now }
        ensures change { result ≡ release_change contract held.now.quantity held.now.limit }
        ensures limits { (set : Tables) → contract < length set.contracts → IsChange set result }
    {
        let quantity = held.quantity;
        let own = Gain {
            quantity: quantity.negated(),
            worth: WorthChange::of(quantity, held.limit),
        };
        held_change(
            contract,
            size(quantity).negated(),
            is_buy(quantity),
            &NOTHING,
            &own,
        )
    }

    /// What a fill changes: the portfolios without the hold gain the lot, those with it lose as much of the hold.
    pub fn of_fill(contract: usize, quantity: LotQuantity, limit: u32, premium: Premium) -> Change
        requires { limit ≤ 10 ^ 8 }
        ensures change { result ≡ fill_change contract quantity limit premium }
        ensures limits { (set : Tables) → contract < length set.contracts → IsChange set result }
    {
        let quantity = quantity.quantity();
        let paid = WorthChange::of(quantity, premium.cents()).negated();
        let apart = Gain {
            quantity,
            worth: paid,
        };
        let own = Gain {
            quantity: Quantity::ZERO,
            worth: paid.plus(WorthChange::of(quantity, limit)),
        };
        held_change(contract, Quantity::ZERO, is_buy(quantity), &apart, &own)
    }
}

// A quantity above 0 buys.
fn is_buy(quantity: Quantity) -> bool
    ensures { result ≡ is_buy quantity }
{
    quantity.is_long()
}

// How many contracts a quantity comes to in size.
fn size(quantity: Quantity) -> Quantity
    requires { unsigned_abs quantity ≤ 10 ^ 6 }
    ensures { result ≡ pos (unsigned_abs quantity) }
{
    Quantity::new(quantity.size() as i64)
}

// One gain for the two portfolios that count what is held on a side, another for the two that do not.
fn held_change(contract: usize, size: Quantity, buys: bool, apart: &Gain, own: &Gain) -> Change
    requires size { unsigned_abs size ≤ 10 ^ 7 }
    requires apart { IsGain apart.now }
    requires own { IsGain own.now }
    ensures change { result ≡ held_change contract size buys apart.now own.now }
    ensures limits { (set : Tables) → contract < length set.contracts → IsChange set result }
{
    Change {
        contract,
        size,
        lots: *apart,
        buys: either(buys, own, apart),
        sales: either(buys, apart, own),
        all: *own,
    }
}

fn either(test: bool, first: &Gain, second: &Gain) -> Gain
    requires first { IsGain first.now }
    requires second { IsGain second.now }
    ensures gain { result ≡ (if test then first.now else second.now) }
    ensures limits { IsGain result }
{
    if test { *first } else { *second }
}

impl Row {
    /// Whether the least room would be below 0 after a change of which the requirements were worked out.
    pub fn lacks_room_after(&self, set: &ParamSet, change: &Change, priced: &Priced) -> bool
        requires row { IsRow set.now self.now }
        requires change { IsChange set.now change.now }
        requires priced { Prices set.now change.now self.now priced.now }
        ensures { result ≡ lacks_room (row_with set.now change.now self.now) }
    {
        let lots = self
            .lots
            .room_after(set, change.contract, &change.lots, priced.lots);
        let buys = self
            .buys
            .room_after(set, change.contract, &change.buys, priced.buys);
        let sales = self
            .sales
            .room_after(set, change.contract, &change.sales, priced.sales);
        let all = self
            .all
            .room_after(set, change.contract, &change.all, priced.all);
        let least = lesser_room(lesser_room(lesser_room(lots, buys), sales), all);
        least < Cents::ZERO
    }
}

impl PortfolioRow {
    /// What the portfolio would have above its requirement after a gain for which that was worked out.
    pub fn room_after(
        &self,
        set: &ParamSet,
        contract: usize,
        gain: &Gain,
        requirement: Cents,
    ) -> Cents
        requires side { IsPortfolioRow set.now self.now }
        requires gain { IsGain gain.now }
        requires priced { PricesPortfolio set.now contract gain.now self.now requirement }
        ensures { result ≡ portfolio_room (portfolio_with set.now contract gain.now self.now) }
    {
        self.worth.plus(gain.worth.cents()).minus(requirement)
    }
}

// The lesser of two rooms; the first of equals.
fn lesser_room(first: Cents, second: Cents) -> Cents
    ensures { result ≡ lesser_room first second }
{
    if second < first { second } else { first }
}

/// A law, and no work: a fill at the limit of its hold leaves the portfolio with the holds of its side, and the one
/// with all holds, as they were, what they require, their worth and their room.
pub fn filling_at_limit_keeps_room()
    ensures { FillAtLimitKeeps }
{}
