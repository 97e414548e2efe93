ghost use Rattle.std.specs.Prelude.{◌≡◌, ◌<◌, ◌≤◌, ◌+◌, ◌-◌, ◌++◌, ◌∷◌, ◌↔◌, [], false, length, slice_index_or, IfOk, IfErr, IfSome, OnErr, OnOk, IsTrue};

use crate::slots::{SlotNames, Slots};
use boxcar::slot::Written;
use std::alloc::{AllocError, Global};
use std::marker::{Model, PhantomData};

/// Shows what the slot of a place was given. It takes 8 bytes, whatever the value. Contracts see the place, which counts from
/// 1, and the value.
#[derive(Drop)]
pub struct Stamp<'a, T, J: SlotNames> {
    place: usize,
    token: Written<T>,
    of: PhantomData<(&'a (), J)>,
}

impl<'a, T, J: SlotNames> Model for Stamp<'a, T, J> {
    ghost use Rattle.std.specs.Prelude.{ℕ};
    ghost use Rattle.mgn_slots.specs.Stamps.{IsStamp};

    ghost Value = { ℕ × T };

    ghost view = { λ s. (s.place, s.token.value) };

    ghost invariant = { λ s. IsStamp J.slots s.place s.token.of };
}

impl<'a, T: Drop, J: SlotNames> Stamp<'a, T, J> {
    /// The place whose slot it shows, 1 for the first.
    pub fn place(&self) -> usize
        ensures place { result ≡ self.now.0 }
        ensures some { 0 < result }
    {
        self.place
    }

    /// The value that the slot of its place was given, read from that slot.
    pub fn value(&self, slots: &'a Slots<T>) -> &'a T
        requires { slots.now ≡ J.slots }
        ensures { result.now ≡ self.now.1 }
    {
        slots.at(self.place - 1).value(&self.token)
    }

    /// The same once more: it shows the same value of the same place.
    pub fn again(&self) -> Stamp<'a, T, J>
        ensures { result ≡ self.now }
    {
        Stamp {
            place: self.place,
            token: self.token.again(),
            of: PhantomData,
        }
    }
}

/// Shows what the slots of all places so far were given, of which the last is that of the last `set_next`. It belongs under the
/// lock of the history whose places these are. Contracts see the values, in order of place.
#[derive(Drop)]
pub struct Stamps<'a, T, J: SlotNames> {
    slots: &'a Slots<T>,
    tokens: Vec<Written<T>>,
    of: PhantomData<J>,
}

impl<'a, T, J: SlotNames> Model for Stamps<'a, T, J> {
    ghost use Rattle.std.specs.Prelude.{List, map, vec_capacity};
    ghost use Rattle.mgn_slots.specs.Stamps.{AreStamps};

    ghost Value = { List T };

    ghost view = { λ s. map (λ token. token.value) s.tokens.items };

    ghost invariant = { λ s. AreStamps (λ token. token.of) s.slots.now J.slots (vec_capacity s.tokens) s.tokens.items };
}

impl<'a, T: Drop, J: SlotNames> Stamps<'a, T, J> {
    /// No place yet. A token has no bytes, so this takes no memory that grows with the number of slots, and `set_next` takes
    /// none. An error says that memory was refused.
    pub fn new(alloc: Global, slots: &'a Slots<T>) -> Result<Stamps<'a, T, J>, AllocError>
        requires { slots.now ≡ J.slots }
        ensures { IfOk result (λ stamps. stamps ≡ []) }
    {
        let tokens = Vec::with_capacity(alloc, slots.len())?;
        Ok(Stamps {
            slots,
            tokens,
            of: PhantomData,
        })
    }

    /// How many places there are so far.
    pub fn len(&self) -> usize
        ensures { result ≡ length self.now }
    {
        self.tokens.len()
    }

    /// Whether there is a place for each slot, so that there is no next one.
    pub fn is_full(&self) -> bool
        ensures full { IsTrue result → length self.now ≡ length J.slots }
        ensures room { result ≡ false → length self.now < length J.slots }
    {
        self.tokens.len() == self.slots.len()
    }

    /// What shows the value that the slot of the next place has already, where somebody else gave it one; then `set_next`
    /// hands its value back. None where it has none yet. Slots are shared, so no clause says which of the two it is, but a stamp is
    /// there only for a slot that has a value.
    pub fn taken(&self) -> Option<Stamp<'a, T, J>>
        requires { length self.now < length J.slots }
        ensures { IfSome result (λ stamp. stamp.0 ≡ length self.now + 1) }
    {
        let count = self.tokens.len();
        let token = self.slots.at(count).witness()?;
        Some(Stamp {
            place: count + 1,
            token,
            of: PhantomData,
        })
    }

    /// Gives a value to the slot of the next place, which is then the last place so far. Where that slot has a value already
    /// the value comes back, and nothing has changed. It takes no memory.
    pub fn set_next(&mut self, value: T) -> Result<Stamp<'a, T, J>, T>
        requires { length self.old < length J.slots }
        ensures stamped { IfOk result (λ stamp. stamp ≡ (length self.old + 1, value)) }
        ensures pushed { OnOk result (self.new ≡ self.old ++ value ∷ []) }
        ensures back { IfErr result (λ refused. refused ≡ value) }
        ensures same { OnErr result (self.new ≡ self.old) }
    {
        let count = self.tokens.len();
        let token = self.slots.at(count).set_written(value)?;
        self.tokens.push_reserved(token.again());
        Ok(Stamp {
            place: count + 1,
            token,
            of: PhantomData,
        })
    }

    /// What shows the value of a place, one of those so far.
    pub fn stamp(&self, place: usize) -> Stamp<'a, T, J>
        requires low { 0 < place }
        requires high { place ≤ length self.now }
        ensures place { result.0 ≡ place }
        ensures shown { result.1 ≡ slice_index_or self.now (place - 1) result.1 }
    {
        Stamp {
            place,
            token: self.tokens[place - 1].again(),
            of: PhantomData,
        }
    }

    /// Whether the place of a stamp is one of those so far. Then its value here is the one that the stamp shows, whoever made
    /// the stamp. Two numbers are compared, and no value is read.
    pub fn has(&self, stamp: &Stamp<'a, T, J>) -> bool
        ensures held { IsTrue result ↔ (stamp.now.0 ≤ length self.now) }
        ensures some { 0 < stamp.now.0 }
        ensures shown { IsTrue result → stamp.now.1 ≡ slice_index_or self.now (stamp.now.0 - 1) stamp.now.1 }
    {
        if self.tokens.len() < stamp.place {
            return false;
        }
        self.tokens[stamp.place - 1].agrees(&stamp.token);
        true
    }
}
