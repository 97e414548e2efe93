//! The units of accounts that a session named before.

ghost use Rattle.std.specs.Prelude.{◌<◌};

use mgn_ids::AccountName;

// How many are kept at most.
const PLACES: usize = 64;

/// Units of accounts, each at a place that the account's name gives, until another account takes that place. Nothing
/// rests on them but time: each call looks at the book anew.
#[derive(Clone, Copy)]
pub(crate) struct KnownUnits {
    places: [Option<(AccountName, usize)>; PLACES],
}

// The place of an account. By 31, whose square leaves 1 over 64, names that end in numbers would share half of the places.
fn place_of(account: &AccountName) -> usize
    ensures { result < 64 }
{
    let mut sum: u8 = 0;
    for byte in account.as_bytes() {
        sum = sum.wrapping_mul(37).wrapping_add(*byte);
    }
    usize::from(sum % 64)
}

impl KnownUnits {
    /// None. Takes no memory.
    pub(crate) fn new() -> KnownUnits {
        KnownUnits {
            places: [None; PLACES],
        }
    }

    /// The unit of an account, if it is kept.
    pub(crate) fn get(&self, account: &AccountName) -> Option<usize> {
        match &self.places[place_of(account)] {
            Some((name, unit)) if name == account => Some(*unit),
            _ => None,
        }
    }

    /// Keeps the unit of an account.
    pub(crate) fn keep(&mut self, account: AccountName, unit: usize) {
        self.places[place_of(&account)] = Some((account, unit));
    }
}
