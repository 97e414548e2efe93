ghost use Rattle.std.specs.Prelude.{◌≡◌, ◌<◌, ◌↔◌, All, IsTrue};
ghost use Rattle.std.specs.List.Sorted.{IsStrictlyIncreasing};
ghost use Rattle.mgn_lots.specs.Lots.{numbers_of, place_of_lot};

use crate::lot::Lot;
use mgn_ids::LotId;

// Whether a number is above those of all lots, which rise. Looks at the last one alone.
pub(crate) fn is_above(lots: &[Lot], number: LotId) -> bool
    requires { IsStrictlyIncreasing (numbers_of lots.now) }
    ensures { IsTrue result ↔ All (λ x. x < number) (numbers_of lots.now) }
{
    match lots.last() {
        Some(last) => last.number.lot() < number,
        None => true,
    }
}

// Where the lot of a number stands among lots whose numbers rise. New numbers are mostly above all of them, so that is
// tested first.
pub(crate) fn place_in_rising(lots: &[Lot], number: LotId) -> Option<usize>
    requires { IsStrictlyIncreasing (numbers_of lots.now) }
    ensures { result ≡ place_of_lot lots.now number }
{
    if is_above(lots, number) {
        return None;
    }
    lots.binary_search_by_key(&number, |lot| lot.number.lot())
        .ok()
}
