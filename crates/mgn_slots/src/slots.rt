ghost use Rattle.std.specs.Prelude.{◌≡◌, ◌<◌, length, slice_index, IfOk};

use boxcar::slot::{OnceSlot, SlotRule};
use boxcar::tag::Tag;
use std::alloc::{AllocError, Global};
use std::marker::{Brand, Model};

/// Which slots are meant, by their names in order of place. A caller that makes slots picks them, at `Brand`, so that types
/// which never meet can speak of the same ones.
pub trait SlotNames {
    ghost use Rattle.std.specs.Prelude.{ℕ, List};

    ghost slots: { List ℕ };
}

impl SlotNames for Brand {
    ghost use Rattle.std.specs.Prelude.{[]};

    ghost slots = { [] };
}

/// A slot may be given any value.
#[derive(Drop)]
pub struct AnyValue;

impl<T> SlotRule<T> for AnyValue {
    ghost holds = { λ _ _. Unit {0} };
}

/// One write-once slot for each place of a history. Threads share them by reference. Contracts see the names of the slots,
/// in order of place; what a slot was given is shown by a `Stamp`.
#[derive(Drop)]
pub struct Slots<T> {
    slots: Vec<OnceSlot<T, AnyValue>>,
}

impl<T> Model for Slots<T> {
    ghost use Rattle.std.specs.Prelude.{ℕ, List, map};

    ghost Value = { List ℕ };

    ghost view = { λ s. map (λ slot. slot.id) s.slots.items };
}

impl<T: Drop> Slots<T> {
    /// So many slots, none of which has been given a value. All their memory is taken here: 16 bytes for each slot of values
    /// without bytes. An error says that it was refused.
    pub fn new(alloc: Global, count: usize) -> Result<Slots<T>, AllocError>
        ensures { IfOk result (λ slots. length slots ≡ count) }
    {
        let tag = Tag::empty();
        let mut slots = Vec::with_capacity(alloc, count)?;
        for _made in 0..count {
            slots.push(OnceSlot::new(&tag))?;
        }
        Ok(Slots { slots })
    }

    /// How many slots there are.
    pub fn len(&self) -> usize
        ensures { result ≡ length self.now }
    {
        self.slots.len()
    }

    // The slot at an index, which is one less than its place.
    pub(crate) fn at(&self, index: usize) -> &OnceSlot<T, AnyValue>
        requires { index < length self.now }
        ensures { result.now.id ≡ slice_index self.now index }
    {
        &self.slots[index]
    }
}
