ghost use Rattle.std.specs.Prelude.{◌≡◌, ◌+◌, ◌<◌, ◌++◌, ◌∷◌, [], length, position, OnOk, OnErr, IfSome, false};
ghost use Rattle.std.specs.List.{list_any};

use indexmap::IndexSet;
use std::alloc::{AllocError, Global};
use std::hash::Hash;
use std::marker::Model;

/// Keys in order of entry, each found by one hash. Contracts see the list of the keys.
#[derive(Drop)]
pub struct Places<K: Copy + Eq + Hash> {
    keys: IndexSet<K>,
}

impl<K: Copy + Eq + Hash> Model for Places<K> {
    ghost use Rattle.std.specs.Prelude.{List};

    ghost Value = { List K };

    ghost view = { λ p. p.keys.keys };
}

impl<K: Copy + Eq + Hash> Places<K> {
    /// No keys. Takes no memory.
    pub fn new(alloc: Global) -> Places<K>
        ensures { result ≡ [] }
    {
        Places {
            keys: IndexSet::new(alloc),
        }
    }

    /// Where a key stands.
    pub fn place(&self, key: K) -> Option<usize>
        ensures place { result ≡ position (K.eq key) self.now }
        ensures within { IfSome result (λ i. i < length self.now) }
    {
        self.keys.get_index_of(&key)
    }

    /// Whether a key is there.
    pub fn has(&self, key: K) -> bool
        ensures { result ≡ list_any (K.eq key) self.now }
    {
        self.keys.contains(&key)
    }

    /// A key that is not there yet, as the last. At an error nothing has changed.
    pub fn push(&mut self, key: K) -> Result<(), AllocError>
        requires { list_any (K.eq key) self.old ≡ false }
        ensures ok { OnOk result (self.new ≡ self.old ++ key ∷ []) }
        ensures err { OnErr result (self.new ≡ self.old) }
    {
        self.keys.insert(key)?;
        Ok(())
    }
}
