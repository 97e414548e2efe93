ghost use Rattle.std.specs.Prelude.{◌≡◌, ◌<◌, List, ℕ, [], ◌∷◌, ◌++◌, All, IfSome, None, if◌then◌else◌};
ghost use Rattle.mgn_inter.specs.Told.{places_of};

use crate::naming::first_place;
use std::marker::Model;

/// The places of the spreads that credit something else after a change, in file order. Contracts see the places.
#[derive(Drop)]
pub struct Reworked {
    // Bit `i` stands for the spread at place `i`.
    places: u64,
}

impl Model for Reworked {
    ghost Value = { List ℕ };

    ghost view = { λ r. places_of r.places };
}

impl Reworked {
    pub(crate) fn none() -> Reworked
        ensures { result ≡ [] }
    {
        Reworked { places: 0 }
    }

    // Adds a place behind all that are there, if it is to be told.
    pub(crate) fn tell(&mut self, is_told: bool, place: usize)
        requires place { place < 64 }
        requires behind { All (λ i. i < place) self.old }
        ensures { self.new ≡ (if is_told then self.old ++ place ∷ [] else self.old) }
    {
        if is_told {
            self.places |= 1 << place;
        }
    }

    /// Takes the first place off, if there is one.
    pub fn pop_first(&mut self) -> Option<usize>
        ensures some { IfSome result (λ i. self.old ≡ i ∷ self.new) }
        ensures none { result ≡ None → (self.old ≡ []) × (self.new ≡ []) }
    {
        let place = first_place(self.places);
        if place == 64 {
            return None;
        }
        self.places &= !(1 << place);
        Some(place)
    }
}
