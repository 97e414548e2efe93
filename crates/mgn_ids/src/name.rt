ghost use Rattle.std.specs.Prelude.{◌≡◌, ◌<◌, ◌≤◌, [], ◌∷◌, Err, drop, length, take};
ghost use Rattle.std.specs.Int.{to_le_bytes, w64};
ghost use Rattle.std.proofs.Common.{rules};
ghost use Rattle.std.specs.Str.{bytes_eq};
ghost use Rattle.std.specs.Cmp.{partial_order_from_own_ties};
ghost use Rattle.std.specs.Cmp.Rules.{comparing};
ghost use Rattle.std.specs.Cmp.Lexicographic.{slice_cmp};
ghost use Rattle.std.specs.Ordering.{nat_cmp, as_partial_cmp};
ghost use Rattle.std.specs.List.{count_by, list_all};
ghost use Rattle.mgn_ids.specs.Name.{is_name_byte, name_in, row_of};

use crate::fault::IdFault;
use std::cmp::Ordering;
use std::hash::{Hash, Hasher};
use std::marker::Model;

/// 1 to 16 bytes of `A` to `Z` and `0` to `9`. Contracts see the list of the bytes.
#[derive(Clone, Copy, Debug)]
pub struct Name {
    bytes: [u8; 16],
    len: u8,
}

impl Model for Name {
    ghost use Rattle.std.specs.Prelude.{List, ℕ, take};
    ghost use Rattle.mgn_ids.specs.Name.{IsNameRow};

    ghost Value = { List ℕ };

    ghost use Rattle.mgn_ids.specs.NameRow.{inside_of, inside_is};

    ghost view = { λ n. take n.len n.bytes };

    ghost invariant = { λ n. IsNameRow n.bytes n.len };

    ghost inverse = { inside_of };

    ghost inverse_ok = { inside_is };
}

fn is_name_byte(byte: u8) -> bool
    ensures { result ≡ is_name_byte byte }
{
    byte.is_ascii_uppercase() || byte.is_ascii_digit()
}

fn are_name_bytes(word: &[u8]) -> bool
    ensures { result ≡ list_all is_name_byte word.now }
{
    word.iter().all(|byte| is_name_byte(*byte))
}

// How many bytes of a row are a name's. No byte ends the loop, so that all are looked at at once.
fn count_name_bytes(row: &[u8; 16]) -> u8
    ensures { result ≡ count_by is_name_byte row.now }
{
    let mut count = 0;
    for i in 0..16 {
        count += u8::from(is_name_byte(row[i]));
    }
    count
}

// Eight bytes of a row as one number.
fn word(row: &[u8; 16], from: usize) -> u64
    requires { from ≤ 8 }
    ensures { to_le_bytes w64 result ≡ take 8 (drop from row.now) }
{
    match row[from..].first_chunk::<8>() {
        Some(bytes) => u64::from_le_bytes(*bytes),
        None => unreachable!(),
    }
}

// Whether two rows are the same, by two numbers of each.
fn are_same(row: &[u8; 16], other: &[u8; 16]) -> bool
    ensures { result ≡ bytes_eq row.now other.now }
{
    word(row, 0) == word(other, 0) && word(row, 8) == word(other, 8)
}

// What is wrong with a word of more than 16 bytes.
fn fault_of_long(word: &[u8]) -> IdFault
    requires { 16 < length word.now }
    ensures { Err result ≡ name_in word.now }
{
    if are_name_bytes(word) {
        IdFault::Range
    } else {
        IdFault::Syntax
    }
}

impl Name {
    /// The name that a word spells. `Syntax` where a byte is none of a name's or there is none, `Range` where there
    /// are more than 16. Takes no memory.
    #[tactic(auto, unfolding(crate::specs::Name::name_in))]
    pub fn read(word: &[u8]) -> Result<Name, IdFault>
        ensures { result ≡ name_in word.now }
    {
        let len = word.len();
        if len > 16 {
            return Err(fault_of_long(word));
        }
        let mut bytes = [0u8; 16];
        bytes[..len].copy_from_slice(word);
        if len == 0 || usize::from(count_name_bytes(&bytes)) != len {
            return Err(IdFault::Syntax);
        }
        Ok(Name {
            bytes,
            len: len as u8,
        })
    }

    /// The bytes of the name.
    pub fn as_bytes(&self) -> &[u8]
        ensures value { result.now ≡ self.now }
        ensures length { (1 ≤ length result.now) × (length result.now ≤ 16) }
    {
        &self.bytes[..self.len as usize]
    }
}

// Names are equal, and stand in order, as their bytes do.

impl PartialEq for Name {
    ghost eq = { bytes_eq };

    ghost laws = { Prim.search (comparing, rules) };

    // Two rows of 16 bytes, and no loop over as many as the names have.
    fn eq(&self, other: &Name) -> bool {
        self.len == other.len && are_same(&self.bytes, &other.bytes)
    }
}

impl Eq for Name {
    ghost laws = { Prim.search (comparing, rules) };
}

impl PartialOrd for Name {
    ghost partial_cmp = { as_partial_cmp (slice_cmp nat_cmp) };

    ghost laws = { partial_order_from_own_ties (Prim.search (comparing, rules)) (Prim.search (comparing, rules)) };

    fn partial_cmp(&self, other: &Name) -> Option<Ordering> {
        Some(self.cmp(other))
    }
}

impl Ord for Name {
    ghost cmp = { slice_cmp nat_cmp };

    ghost total = { Prim.search (comparing, rules) };

    ghost matches_partial_cmp = { Prim.search (comparing, rules) };

    ghost matches_eq = { Prim.search (comparing, rules) };

    fn cmp(&self, other: &Name) -> Ordering {
        self.as_bytes().cmp(&other.as_bytes())
    }
}

// One write of 16 bytes, whatever the length.
impl Hash for Name {
    ghost hash_input = { λ name. row_of name ∷ [] };

    ghost respects_eq = { Prim.search rules };

    fn hash<H: Hasher>(&self, state: &mut H) {
        state.write(&self.bytes);
    }
}
