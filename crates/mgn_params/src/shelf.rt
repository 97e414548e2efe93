ghost use Rattle.std.specs.Prelude.{◌≡◌, ◌<◌, ◌≤◌, ◌++◌, ◌∷◌, [], ℕ, length, IfOk, IfErr, IfSome, IsSome, OnErr, OnOk, IsSomeAnd};
ghost use Rattle.mgn_params.specs.Shelves.{set_at};

use crate::limits::MOST_SETS;
use crate::set::ParamSet;
use std::alloc::{AllocError, Global};
use std::marker::Model;
use thiserror::Error;

/// The number of a set among those of a shelf: 0 for the first, then one more with each that is put. What it shows is
/// the set at that place of the shelf. Shelves alone make versions.
#[derive(Clone, Copy)]
pub struct Version {
    number: u8,
}

impl Model for Version {
    ghost use Rattle.std.specs.Prelude.{ℕ};
    ghost use Rattle.mgn_params.specs.Shelves.{IsVersion};

    ghost Value = { ℕ };

    ghost view = { λ v. v.number };

    ghost invariant = { λ v. IsVersion v.number };

    ghost inverse = { λ n. record { number = n } };
}

impl Version {
    ghost use Rattle.mgn_params.specs.Shelves.{IsVersion};

    /// The version of a number, for a shelf.
    pub fn new(number: u8) -> Version
        requires { IsVersion number }
        ensures { result ≡ number }
    {
        Version { number }
    }

    /// The number, 0 to 64.
    pub fn number(self) -> u8
        ensures value { result ≡ self }
        ensures small { IsVersion result }
    {
        self.number
    }
}

/// Why a set is not put on a shelf.
#[derive(Clone, Copy, PartialEq, Eq, Debug, Error)]
pub enum PutFault {
    /// The shelf holds the first set and 64 more.
    #[error("the first set and 64 more are held")]
    Sets,
    /// Memory could not be had.
    #[error("memory could not be had")]
    Memory,
}

/// Where the sets of a book stand. Contracts see the list of them, in order of version, and a number for what a change
/// of the shelf leaves alone, which tells a caller that lends a shelf a field of its own that the field is unchanged.
pub trait Shelf {
    ghost use Rattle.std.specs.Prelude.{ℕ, List};
    ghost use Rattle.mgn_params.specs.Tables.{Tables};

    ghost sets: { Self → List Tables };

    ghost place: { Self → ℕ };

    /// The version of the set that the shelf was made with, number 0.
    fn first(&self) -> Version
        ensures number { result ≡ 0 }
        ensures held { 0 < length (sets self.now) };

    /// Puts a set, which gets the next version. A refused set comes back, and nothing has changed.
    fn put(&mut self, set: ParamSet) -> Result<Version, (PutFault, ParamSet)>
        ensures place { place self.new ≡ place self.old }
        ensures version { IfOk result (λ version. version ≡ length (sets self.old)) }
        ensures put { OnOk result (sets self.new ≡ sets self.old ++ set ∷ []) }
        ensures room { OnOk result (length (sets self.old) ≤ 64) }
        ensures back { IfErr result (λ refused. refused.1 ≡ set) }
        ensures same { OnErr result (sets self.new ≡ sets self.old) }
        ensures full { IfErr result (λ refused. refused.0 ≡ PutFault.Sets → length (sets self.old) ≡ 65) };

    /// The set of a version.
    fn get(&self, version: Version) -> Option<&ParamSet>
        ensures { version < length (sets self.now) → IsSomeAnd result (λ set. set.now ≡ set_at (sets self.now) version) };
}

/// The set of a version that a shelf shows.
pub fn set_of<S: Shelf>(shelf: &S, version: Version) -> &ParamSet
    requires { version < length (S.sets shelf.now) }
    ensures { result.now ≡ set_at (S.sets shelf.now) version }
{
    match shelf.get(version) {
        Some(set) => set,
        None => unreachable!(),
    }
}

/// Where a list has a set.
pub fn place_of_set(sets: &[ParamSet], set: &ParamSet) -> Option<usize>
    ensures there { IfSome result (λ i. (i < length sets.now) × (set_at sets.now i ≡ set.now)) }
    ensures absent { (i : ℕ) → i < length sets.now → set_at sets.now i ≡ set.now → IsSome result }
{
    for place in 0..sets.len() {
        if sets[place].is_same(set) {
            return Some(place);
        }
    }
    None
}

/// The shelf of one thread. Equal sets stand once.
#[derive(Drop)]
pub struct SetList {
    sets: Vec<ParamSet>,
    // For each version where its set stands.
    places: Vec<u8>,
}

impl Model for SetList {
    ghost use Rattle.std.specs.Prelude.{List, map};
    ghost use Rattle.mgn_params.specs.Tables.{Tables};
    ghost use Rattle.mgn_params.specs.Shelves.{ArePlaces, set_at};

    ghost Value = { List Tables };

    ghost view = { λ s. map (set_at s.sets.items) s.places.items };

    ghost invariant = { λ s. ArePlaces s.sets.items s.places.items };
}

impl SetList {
    /// A shelf with its first set.
    pub fn new(alloc: Global, first: ParamSet) -> Result<SetList, AllocError>
        ensures { IfOk result (λ list. list ≡ first ∷ []) }
    {
        let mut sets = Vec::new(alloc);
        sets.push(first)?;
        let places = vec![in alloc; 0; 1]?;
        Ok(SetList { sets, places })
    }
}

impl Shelf for SetList {
    ghost sets = { λ list. list };

    ghost place = { λ _. 0 };

    fn first(&self) -> Version {
        let _ = &self.sets;
        Version::new(0)
    }

    fn put(&mut self, set: ParamSet) -> Result<Version, (PutFault, ParamSet)> {
        let number = self.places.len();
        if number >= MOST_SETS {
            return Err((PutFault::Sets, set));
        }
        if self.places.reserve(1).is_err() {
            return Err((PutFault::Memory, set));
        }
        if let Some(place) = place_of_set(&self.sets, &set) {
            self.places.push_reserved(place as u8);
            return Ok(Version::new(number as u8));
        }
        let place = self.sets.len();
        match self.sets.push(set) {
            Ok(()) => {
                self.places.push_reserved(place as u8);
                Ok(Version::new(number as u8))
            }
            Err(refused) => Err((PutFault::Memory, refused.value)),
        }
    }

    fn get(&self, version: Version) -> Option<&ParamSet> {
        let place = *self.places.get(version.number() as usize)?;
        Some(&self.sets[usize::from(place)])
    }
}
