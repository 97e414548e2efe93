ghost use Rattle.std.specs.Prelude.{◌≡◌, ◌<◌, ◌++◌, ◌∷◌, [], length, slice_set, OnOk, OnErr, IfSome, IsOk, true, false};
ghost use Rattle.mgn_lots.specs.Lots.{IsLot, lot_at, busted, has_number, is_full, place_of_lot, net, gross, is_live};

use crate::lot::{Lot, Mark};
use crate::numbers::{is_above, place_in_rising};
use indexmap::IndexSet;
use mgn_ids::{ContractName, LotId};
use std::alloc::{AllocError, Global};
use std::marker::Model;

/// How many lots an account may have, busted ones included.
pub const MOST_LOTS: usize = 65_536;

/// The lots of an account, in order of entry. From the first on, as long as each number is above the one before it, a
/// lot is found by a binary search, and one comparison tells that a number is above all of these. Lots behind them are
/// found by one hash of the number, in a table that has their numbers alone; where there are none it is not asked, and
/// stays as small as it begins. The net and the gross of a contract take a walk over all lots. Contracts see the list
/// of the lots, and whether memory for the next one is reserved.
#[derive(Drop)]
pub struct Lots {
    lots: Vec<Lot>,
    // How many lots, from the first on, have numbers that rise.
    rising: usize,
    // The numbers of the lots behind those, in order.
    numbers: IndexSet<LotId>,
    // The lots and these numbers have room for one more, and neither has used it since.
    reserved: bool,
}

impl Model for Lots {
    ghost use Rattle.std.specs.Prelude.{vec_len, vec_capacity};
    ghost use Rattle.indexmap.specs.IndexSet.{spare};
    ghost use Rattle.mgn_lots.specs.LotList.{LotList};
    ghost use Rattle.mgn_lots.specs.Kept.{IsLots, HasRoom};

    ghost Value = { LotList };

    ghost view = { λ l. record { lots = l.lots.items; reserved = l.reserved } };

    ghost invariant = { λ l. IsLots l.lots.items l.rising l.numbers.keys l.reserved
        (HasRoom (vec_len l.lots) (vec_capacity l.lots) (spare l.numbers)) };
}

impl Lots {
    /// No lots, and nothing reserved. Takes no memory.
    pub fn new(alloc: Global) -> Lots
        ensures lots { result.lots ≡ [] }
        ensures reserved { result.reserved ≡ false }
    {
        Lots {
            lots: Vec::new(alloc),
            rising: 0,
            numbers: IndexSet::new(alloc),
            reserved: false,
        }
    }

    /// How many lots there are, busted ones included.
    pub fn len(&self) -> usize
        ensures { result ≡ length self.now.lots }
    {
        self.lots.len()
    }

    /// Whether there are as many lots as an account may have.
    pub fn is_full(&self) -> bool
        ensures { result ≡ is_full self.now.lots }
    {
        MOST_LOTS <= self.len()
    }

    /// All lots, in order of entry.
    pub fn as_slice(&self) -> &[Lot]
        ensures { result.now ≡ self.now.lots }
    {
        self.lots.as_slice()
    }

    /// Whether there is a lot of a number, busted or not. Where all numbers have risen, one above them takes one
    /// comparison.
    pub fn has(&self, number: LotId) -> bool
        ensures { result ≡ has_number self.now.lots number }
    {
        self.place(number).is_some()
    }

    /// Where the lot of a number stands. Takes a binary search among the first lots, as long as their numbers rise; for
    /// a lot behind them, one hash more.
    pub fn place(&self, number: LotId) -> Option<usize>
        ensures place { result ≡ place_of_lot self.now.lots number }
        ensures within { IfSome result (λ i. i < length self.now.lots) }
    {
        if let Some(place) = place_in_rising(&self.lots[..self.rising], number) {
            return Some(place);
        }
        if self.rising == self.lots.len() {
            return None;
        }
        let behind = self.numbers.get_index_of(&number)?;
        Some(self.rising + behind)
    }

    /// The lot at a place.
    pub fn at(&self, place: usize) -> &Lot
        requires { place < length self.now.lots }
        ensures lot { result.now ≡ lot_at self.now.lots place }
        ensures limits { IsLot result.now }
    {
        &self.lots[place]
    }

    /// The net of a contract, in contracts: the sum of the quantities of its live lots. Busted ones count for nothing.
    /// It walks over all lots, so it takes as long as there are lots.
    pub fn net(&self, contract: &ContractName) -> i64
        ensures { result ≡ net contract.now self.now.lots }
    {
        let mut net = 0;
        for lot in self.lots.as_slice() {
            net += lot.share(contract).contracts();
        }
        net
    }

    /// The gross of a contract, in contracts: the sum of the sizes of its live lots. Busted ones count for nothing. It
    /// walks over all lots, so it takes as long as there are lots.
    pub fn gross(&self, contract: &ContractName) -> u64
        ensures { result ≡ gross contract.now self.now.lots }
    {
        let mut gross = 0;
        for lot in self.lots.as_slice() {
            gross += lot.share(contract).size();
        }
        gross
    }

    /// Reserves memory for one more lot: the next one is then added without any. Where memory is refused nothing has
    /// changed; where it is reserved already none is taken. The number of that lot is not known yet, so there is room for
    /// it in the table too.
    pub fn reserve(&mut self) -> Result<(), AllocError>
        ensures lots { self.new.lots ≡ self.old.lots }
        ensures ok { OnOk result (self.new.reserved ≡ true) }
        ensures err { OnErr result (self.new ≡ self.old) }
        ensures succeeds { self.old.reserved ≡ true → IsOk result }
    {
        self.lots.reserve(1)?;
        self.numbers.reserve(1)?;
        self.reserved = true;
        Ok(())
    }

    // Whether memory for one more lot is reserved.
    pub(crate) fn is_reserved(&self) -> bool
        ensures { result ≡ self.now.reserved }
    {
        self.reserved
    }

    // Gives a reservation up. The memory stays, but is promised to no lot.
    pub(crate) fn give_up_reserved(&mut self)
        ensures lots { self.new.lots ≡ self.old.lots }
        ensures reserved { self.new.reserved ≡ false }
    {
        self.reserved = false;
    }

    /// Adds a lot of a new number within the limits, where there is room for it. Where memory is refused nothing has
    /// changed; where it is reserved none is taken.
    pub fn add(&mut self, lot: &Lot) -> Result<(), AllocError>
        requires limits { IsLot lot.now }
        requires fresh { has_number self.old.lots lot.now.number ≡ false }
        requires room { is_full self.old.lots ≡ false }
        ensures ok { OnOk result (self.new.lots ≡ self.old.lots ++ lot.now ∷ []) }
        ensures spent { OnOk result (self.new.reserved ≡ false) }
        ensures err { OnErr result (self.new ≡ self.old) }
        ensures succeeds { self.old.reserved ≡ true → IsOk result }
    {
        self.reserve()?;
        self.add_reserved(lot);
        Ok(())
    }

    /// Adds a lot of a new number within the limits, where there is room for it, in the memory that is reserved. That
    /// is then spent.
    pub fn add_reserved(&mut self, lot: &Lot)
        requires limits { IsLot lot.now }
        requires fresh { has_number self.old.lots lot.now.number ≡ false }
        requires room { is_full self.old.lots ≡ false }
        requires reserved { self.old.reserved ≡ true }
        ensures lots { self.new.lots ≡ self.old.lots ++ lot.now ∷ [] }
        ensures spent { self.new.reserved ≡ false }
    {
        self.reserved = false;
        if self.rising == self.lots.len() && is_above(&self.lots, lot.number.lot()) {
            self.rising += 1;
        } else {
            let _ = self.numbers.insert(lot.number.lot());
        }
        self.lots.push_reserved(*lot);
    }

    /// Marks the live lot at a place busted: it counts for nothing from now on, and its number stays taken. Takes no
    /// memory.
    pub fn bust(&mut self, place: usize)
        requires within { place < length self.old.lots }
        requires live { is_live (lot_at self.old.lots place).mark ≡ true }
        ensures lots { self.new.lots ≡ slice_set self.old.lots place (busted (lot_at self.old.lots place)) }
        ensures reserved { self.new.reserved ≡ self.old.reserved }
    {
        self.lots[place].mark = Mark::Busted;
    }
}
