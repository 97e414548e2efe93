ghost use Rattle.std.specs.Prelude.{◌≡◌, ◌≢◌, ◌<◌, ◌++◌, ◌∷◌, [], Some, length, remove, slice_set, OnOk, OnErr, IfSome, true, false};
ghost use Rattle.mgn_holds.specs.Holds.{IsHeld, hold_at, place_of_order, has_order, is_full, covers, filled_at, lessened};

use crate::held::Held;
use crate::places::{is_above, place_in_rising};
use mgn_ids::OrderId;
use mgn_num::Quantity;
use std::alloc::{AllocError, Global};
use std::marker::Model;

/// How many holds an account may have.
pub const MOST_HOLDS: usize = 256;

/// The holds of an account, in order of entry, one of an order at a time. As long as each order that comes is above the
/// one before it, a hold is found by a binary search, and one comparison tells that an order is above all others. Once
/// a lower one has come, a walk over the holds finds it, until none is left. Contracts see the list of the holds.
#[derive(Drop)]
pub struct Holds {
    holds: Vec<Held>,
    // Only where it is true, each order is known to be above the one before it.
    rise: bool,
}

impl Model for Holds {
    ghost use Rattle.std.specs.Prelude.{List};
    ghost use Rattle.mgn_holds.specs.declared.held.Held.{Held};

    ghost Value = { List Held };

    ghost use Rattle.mgn_holds.specs.Kept.{IsKept};

    ghost view = { λ h. h.holds.items };

    ghost invariant = { λ h. IsKept h.holds.items h.rise };
}

impl Holds {
    /// No holds. Takes no memory.
    pub fn new(alloc: Global) -> Holds
        ensures { result ≡ [] }
    {
        Holds {
            holds: Vec::new(alloc),
            rise: true,
        }
    }

    /// How many holds there are.
    pub fn len(&self) -> usize
        ensures { result ≡ length self.now }
    {
        self.holds.len()
    }

    /// Whether there are as many holds as an account may have.
    pub fn is_full(&self) -> bool
        ensures { result ≡ is_full self.now }
    {
        MOST_HOLDS <= self.len()
    }

    /// All holds, in order of entry.
    pub fn as_slice(&self) -> &[Held]
        ensures { result.now ≡ self.now }
    {
        self.holds.as_slice()
    }

    /// Where the hold of an order stands. Takes one comparison for an order above all others and a binary search for any
    /// other, as long as the orders rise; else a walk over the holds.
    pub fn place(&self, order: OrderId) -> Option<usize>
        ensures place { result ≡ place_of_order self.now order }
        ensures within { IfSome result (λ i. i < length self.now) }
    {
        if self.rise {
            place_in_rising(&self.holds, order)
        } else {
            self.holds.iter().position(|held| held.order == order)
        }
    }

    /// Whether there is a hold of an order. Takes as long as finding its place.
    pub fn has(&self, order: OrderId) -> bool
        ensures { result ≡ has_order self.now order }
    {
        self.place(order).is_some()
    }

    /// The hold at a place. It is the one that is found by its order.
    pub fn at(&self, place: usize) -> &Held
        requires { place < length self.now }
        ensures held { result.now ≡ hold_at self.now place }
        ensures limits { IsHeld result.now }
        ensures found { place_of_order self.now result.now.order ≡ Some place }
    {
        &self.holds[place]
    }

    /// Adds a hold of a new order within the limits, where there is room for it. Where memory is refused nothing has
    /// changed.
    pub fn add(&mut self, held: &Held) -> Result<(), AllocError>
        requires limits { IsHeld held.now }
        requires fresh { has_order self.old held.now.order ≡ false }
        requires room { is_full self.old ≡ false }
        ensures ok { OnOk result (self.new ≡ self.old ++ held.now ∷ []) }
        ensures err { OnErr result (self.new ≡ self.old) }
    {
        let rise = self.rise && is_above(&self.holds, held.order);
        self.holds.push(*held)?;
        self.rise = rise;
        Ok(())
    }

    /// Takes a quantity off the hold at a place, which covers it: a part lessens the hold, all takes it away, and the
    /// others stay in order. Takes no memory.
    pub fn fill(&mut self, place: usize, quantity: Quantity)
        requires within { place < length self.old }
        requires covers { covers (hold_at self.old place) quantity ≡ true }
        ensures { self.new ≡ filled_at self.old place quantity }
    {
        if quantity == self.holds[place].quantity {
            self.release(place);
        } else {
            self.lessen(place, quantity);
        }
    }

    // Takes a part off a hold.
    fn lessen(&mut self, place: usize, quantity: Quantity)
        requires within { place < length self.old }
        requires covers { covers (hold_at self.old place) quantity ≡ true }
        requires part { quantity ≢ (hold_at self.old place).quantity }
        ensures { self.new ≡ slice_set self.old place (lessened (hold_at self.old place) quantity) }
    {
        let held = &mut self.holds[place];
        held.quantity = held.quantity.plus(quantity.negated());
    }

    /// Takes the hold at a place away, and the others stay in order. Takes no memory.
    pub fn release(&mut self, place: usize)
        requires { place < length self.old }
        ensures { self.new ≡ remove self.old place }
    {
        let _ = self.holds.remove(place);
        // Where none is left, whatever comes next rises.
        self.rise = self.rise || self.holds.is_empty();
    }
}
