ghost use Rattle.std.specs.Prelude.{◌≡◌, ◌<◌, ◌≤◌, ◌^◌, ◌*ℤ◌, neg_ℤ, pos, unsigned_abs, length};
ghost use Rattle.mgn_lots.specs.Lots.{IsLot};
ghost use Rattle.mgn_unit.specs.Changes.{gain};
ghost use Rattle.mgn_unit.specs.Rows.{IsGain};

use crate::worth_change::WorthChange;
use mgn_ids::{LotQuantity, Premium};
use mgn_lots::Lot;
use mgn_num::Quantity;

/// What one portfolio gains by a command.
#[derive(Clone, Copy)]
pub struct Gain {
    /// Contracts more, below 0 where there are fewer.
    pub quantity: Quantity,
    /// Cents more, below 0 where there are fewer.
    pub worth: WorthChange,
}

/// What a command changes in the row of a margin unit, in one contract.
#[derive(Clone, Copy)]
pub struct Change {
    /// The place of the contract in the set in force.
    pub contract: usize,
    /// How much more the live lots and holds of the contract come to in size, below 0 where they come to less.
    pub size: Quantity,
    /// What each portfolio gains.
    pub lots: Gain,
    pub buys: Gain,
    pub sales: Gain,
    pub all: Gain,
}

impl Change {
    ghost use Rattle.mgn_params.specs.Tables.{Tables};
    ghost use Rattle.mgn_unit.specs.Changes.{lot_change, bust_change};
    ghost use Rattle.mgn_unit.specs.Rows.{IsChange};

    /// What a lot more changes: each portfolio gains its quantity, and loses what it cost.
    pub fn of_lot(contract: usize, quantity: LotQuantity, premium: Premium) -> Change
        ensures change { result ≡ lot_change contract quantity premium }
        ensures limits { (set : Tables) → contract < length set.contracts → IsChange set result }
    {
        Change {
            contract,
            size: size(quantity),
            lots: lot_gain(quantity, premium),
            buys: lot_gain(quantity, premium),
            sales: lot_gain(quantity, premium),
            all: lot_gain(quantity, premium),
        }
    }

    /// What a busted lot changes: each portfolio loses its quantity, and gains what it cost.
    pub fn of_bust(contract: usize, lot: &Lot) -> Change
        requires { IsLot lot.now }
        ensures change { result ≡ bust_change contract lot.now }
        ensures limits { (set : Tables) → contract < length set.contracts → IsChange set result }
    {
        Change {
            contract,
            size: Quantity::new(-(lot.quantity.size() as i64)),
            lots: bust_gain(lot),
            buys: bust_gain(lot),
            sales: bust_gain(lot),
            all: bust_gain(lot),
        }
    }
}

fn bust_gain(lot: &Lot) -> Gain
    requires { IsLot lot.now }
    ensures gain { result ≡ gain (neg_ℤ lot.now.quantity) (lot.now.quantity *ℤ pos lot.now.premium) }
    ensures limits { IsGain result }
{
    Gain {
        quantity: lot.quantity.negated(),
        worth: WorthChange::of(lot.quantity, lot.premium),
    }
}

fn size(quantity: LotQuantity) -> Quantity
    ensures size { result ≡ pos (unsigned_abs quantity) }
    ensures small { unsigned_abs result ≤ 10 ^ 7 }
{
    Quantity::new(quantity.quantity().size() as i64)
}

fn lot_gain(quantity: LotQuantity, premium: Premium) -> Gain
    ensures gain { result ≡ gain quantity (neg_ℤ (quantity *ℤ pos premium)) }
    ensures limits { IsGain result }
{
    Gain {
        quantity: quantity.quantity(),
        worth: WorthChange::of(quantity.quantity(), premium.cents()).negated(),
    }
}
