ghost use Rattle.std.specs.Prelude.{◌≡◌, ◌<◌, ◌≤◌, ◌*◌, ◌^◌, pos, length, OnOk, OnErr, IfSome, IsOk, false, true, unsigned_abs};
ghost use Rattle.mgn_coll.specs.Posted.{IsPosted, amount_of, has_entry, is_cash, is_priced_by, most_of, value};
ghost use Rattle.mgn_lots.specs.Lots.{IsLot, is_live, lot_at, has_number, is_full, place_of_lot};
ghost use Rattle.mgn_machine.specs.State.{fresh, with_lot, with_bust, with_amount};
ghost use Rattle.mgn_unit.specs.NewSets.{value_gain};

use mgn_coll::Collateral;
use mgn_holds::{Held, Holds};
use mgn_ids::{AccountName, ClassName, LotId};
use mgn_lots::{Lot, Lots};
use mgn_num::Cents;
use mgn_params::ParamSet;
use std::alloc::{AllocError, Global};
use std::marker::Model;

/// An account: its origin, its margin unit, its collateral, its lots and its holds.
#[derive(Drop)]
pub struct Account {
    name: AccountName,
    origin: usize,
    unit: usize,
    collateral: Collateral,
    pub(crate) lots: Lots,
    pub(crate) holds: Holds,
}

impl Model for Account {
    ghost use Rattle.mgn_machine.specs.State.{AccountState};

    ghost Value = { AccountState };

    ghost view = { λ a. record {
      name = a.name;
      origin = a.origin;
      unit = a.unit;
      collateral = a.collateral;
      lots = a.lots.lots;
      holds = a.holds;
    } };
}

impl Account {
    /// An account of an origin, by its place, and of a margin unit, with nothing in it. Takes no memory.
    pub fn open(alloc: Global, name: AccountName, origin: usize, unit: usize) -> Account
        ensures { result ≡ fresh name origin unit }
    {
        Account {
            name,
            origin,
            unit,
            collateral: Collateral::new(alloc),
            lots: Lots::new(alloc),
            holds: Holds::new(alloc),
        }
    }

    /// Its name.
    pub fn name(&self) -> AccountName
        ensures { result ≡ self.now.name }
    {
        self.name
    }

    /// The place of its origin among the origins.
    pub fn origin(&self) -> usize
        ensures { result ≡ self.now.origin }
    {
        self.origin
    }

    /// The place of its margin unit in the table of units.
    pub fn unit(&self) -> usize
        ensures { result ≡ self.now.unit }
    {
        self.unit
    }

    /// Its collateral.
    pub fn collateral(&self) -> &Collateral
        ensures { result.now ≡ self.now.collateral }
    {
        &self.collateral
    }

    /// Its lots, busted ones included, in order of entry.
    pub fn lots(&self) -> &[Lot]
        ensures { result.now ≡ self.now.lots }
    {
        self.lots.as_slice()
    }

    /// Its holds, in order of entry.
    pub fn holds(&self) -> &[Held]
        ensures { result.now ≡ self.now.holds }
    {
        self.holds.as_slice()
    }

    /// The value of the posted collateral under a set, in cents.
    pub fn collateral_value(&self, set: &ParamSet) -> Cents
        ensures value { result ≡ pos (value set.now.classes self.now.collateral) }
        ensures most { value set.now.classes self.now.collateral ≤ 2 * 10 ^ 18 }
    {
        self.collateral.value(set)
    }

    /// How much more the posted collateral is worth under another set, in cents; below 0 where it is worth less.
    pub fn value_gain(&self, old: &ParamSet, new: &ParamSet) -> Cents
        ensures gain { result ≡ value_gain old.now new.now self.now }
        ensures small { unsigned_abs result ≤ 2 * 10 ^ 18 }
    {
        self.collateral_value(new).minus(self.collateral_value(old))
    }

    /// Whether a set has each class of which units are posted.
    pub fn is_priced_by(&self, set: &ParamSet) -> bool
        ensures { result ≡ is_priced_by set.now.classes self.now.collateral }
    {
        self.collateral.is_priced_by(set)
    }

    /// What is posted of a class: cents of `CASH`, units of another.
    pub fn amount(&self, class: &ClassName) -> u64
        ensures amount { result ≡ amount_of class.now self.now.collateral }
        ensures most { result ≤ most_of class.now }
    {
        self.collateral.amount(class)
    }

    /// The value of the collateral with another amount of one class, in cents.
    pub fn value_with(&self, set: &ParamSet, class: &ClassName, amount: u64) -> Cents
        requires { amount ≤ most_of class.now }
        ensures value { result ≡ pos (value set.now.classes (with_amount self.now class.now amount).collateral) }
        ensures most { value set.now.classes (with_amount self.now class.now amount).collateral ≤ 2 * 10 ^ 18 }
    {
        self.collateral.value_with(set, class, amount)
    }

    /// Whether the account has a lot of a number, busted or not.
    pub fn has_lot(&self, number: LotId) -> bool
        ensures { result ≡ has_number self.now.lots number }
    {
        self.lots.has(number)
    }

    /// Whether the account has as many lots as it may have.
    pub fn is_full(&self) -> bool
        ensures { result ≡ is_full self.now.lots }
    {
        self.lots.is_full()
    }

    /// Adds a lot of a new number. Where memory is refused nothing has changed.
    pub fn add_lot(&mut self, lot: &Lot) -> Result<(), AllocError>
        requires limits { IsLot lot.now }
        requires fresh { has_number self.old.lots lot.now.number ≡ false }
        requires room { is_full self.old.lots ≡ false }
        ensures ok { OnOk result (self.new ≡ with_lot self.old lot.now) }
        ensures err { OnErr result (self.new ≡ self.old) }
    {
        self.lots.add(lot)
    }

    /// Where the lot of a number stands among the account's lots, busted or not.
    pub fn lot_place(&self, number: LotId) -> Option<usize>
        ensures place { result ≡ place_of_lot self.now.lots number }
        ensures within { IfSome result (λ i. i < length self.now.lots) }
    {
        self.lots.place(number)
    }

    /// The lot at a place.
    pub fn lot_at(&self, place: usize) -> &Lot
        requires { place < length self.now.lots }
        ensures lot { result.now ≡ lot_at self.now.lots place }
        ensures limits { IsLot result.now }
    {
        self.lots.at(place)
    }

    /// Busts the live lot at a place. Takes no memory.
    pub fn bust(&mut self, place: usize)
        requires within { place < length self.old.lots }
        requires live { is_live (lot_at self.old.lots place).mark ≡ true }
        ensures { self.new ≡ with_bust self.old place }
    {
        self.lots.bust(place);
    }

    /// Sets what is posted of a class. Where memory is refused nothing has changed; cash, and a class that was posted
    /// before, take none.
    pub fn write_amount(&mut self, class: &ClassName, amount: u64) -> Result<(), AllocError>
        requires { amount ≤ most_of class.now }
        ensures ok { OnOk result (self.new ≡ with_amount self.old class.now amount) }
        ensures err { OnErr result (self.new ≡ self.old) }
        ensures limits { IsPosted self.new.collateral.cash self.new.collateral.units }
        ensures cash { is_cash class.now ≡ true → IsOk result }
        ensures written { has_entry class.now self.old.collateral ≡ true → IsOk result }
        ensures posted { 1 ≤ amount_of class.now self.old.collateral → IsOk result }
    {
        self.collateral.write(class, amount)
    }
}
