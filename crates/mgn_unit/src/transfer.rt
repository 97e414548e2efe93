ghost use Rattle.std.specs.Prelude.{◌≡◌, ◌<◌, ◌≤◌, ◌^◌, ◌+ℤ◌, pos, unsigned_abs, length, OnOk, OnErr, false};
ghost use Rattle.mgn_lots.specs.Lots.{IsLot, has_number, is_full};
ghost use Rattle.mgn_machine.specs.State.{with_lot};
ghost use Rattle.mgn_params.specs.Tables.{Tables};
ghost use Rattle.mgn_span.specs.Positions.{IsNet};
ghost use Rattle.mgn_span.specs.Scan.{value_at};
ghost use Rattle.mgn_unit.specs.Changes.{gain, moved_change};
ghost use Rattle.mgn_unit.specs.Rows.{IsChange, IsGain, IsRow, lacks_room, row_with_size};

use crate::account::Account;
use crate::change::{Change, Gain};
use crate::row::Row;
use crate::worth_change::WorthChange;
use mgn_lots::Lot;
use mgn_num::{Cents, Quantity};
use mgn_params::ParamSet;
use std::alloc::AllocError;

/// Adds a lot of a new number to each of two accounts. All memory is had before either changes: where it is refused
/// neither has changed.
pub fn add_both(
    giver: &mut Account,
    taker: &mut Account,
    given: &Lot,
    taken: &Lot,
) -> Result<(), AllocError>
    requires given { IsLot given.now }
    requires given_fresh { has_number giver.old.lots given.now.number ≡ false }
    requires giver_room { is_full giver.old.lots ≡ false }
    requires taken { IsLot taken.now }
    requires taken_fresh { has_number taker.old.lots taken.now.number ≡ false }
    requires taker_room { is_full taker.old.lots ≡ false }
    ensures given { OnOk result (giver.new ≡ with_lot giver.old given.now) }
    ensures taken { OnOk result (taker.new ≡ with_lot taker.old taken.now) }
    ensures giver_err { OnErr result (giver.new ≡ giver.old) }
    ensures taker_err { OnErr result (taker.new ≡ taker.old) }
{
    mgn_lots::add_both(&mut giver.lots, &mut taker.lots, given, taken)
}

impl Change {
    /// What a moved lot more changes: each portfolio gains its quantity, at no cost.
    pub fn of_moved(contract: usize, quantity: Quantity) -> Change
        requires { unsigned_abs quantity ≤ 10 ^ 6 }
        ensures change { result ≡ moved_change contract quantity }
        ensures limits { (set : Tables) → contract < length set.contracts → IsChange set result }
    {
        Change {
            contract,
            size: Quantity::new(quantity.size() as i64),
            lots: moved_gain(quantity),
            buys: moved_gain(quantity),
            sales: moved_gain(quantity),
            all: moved_gain(quantity),
        }
    }
}

fn moved_gain(quantity: Quantity) -> Gain
    requires { unsigned_abs quantity ≤ 10 ^ 6 }
    ensures gain { result ≡ gain quantity (pos 0) }
    ensures limits { IsGain result }
{
    Gain {
        quantity,
        worth: WorthChange::ZERO,
    }
}

impl Row {
    /// Whether the least room of the portfolios is below 0.
    pub fn lacks_room(&self, set: &ParamSet) -> bool
        requires { IsRow set.now self.now }
        ensures { result ≡ lacks_room self.now }
    {
        self.least_portfolio(set).room(set) < Cents::ZERO
    }

    /// More lots in a contract, of which the sizes add up to this, that leave every portfolio as it was.
    pub fn add_size(&mut self, contract: usize, size: Quantity)
        requires contract { contract < length self.old.sizes }
        requires small { IsNet (value_at self.old.sizes contract +ℤ size) }
        ensures { self.new ≡ row_with_size contract size self.old }
    {
        self.sizes.add(contract, size);
    }
}
