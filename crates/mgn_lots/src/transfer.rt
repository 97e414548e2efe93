ghost use Rattle.std.specs.Prelude.{◌≡◌, ◌++◌, ◌∷◌, [], OnOk, OnErr, IsOk, true, false};
ghost use Rattle.mgn_lots.specs.Lots.{IsLot, has_number, is_full};

use crate::lot::Lot;
use crate::lots::Lots;
use std::alloc::AllocError;

/// Adds one lot to each of two lists, as a transfer between accounts does. All memory is taken before either changes,
/// and where it is refused neither has changed.
pub fn add_both(
    giver: &mut Lots,
    taker: &mut Lots,
    given: &Lot,
    taken: &Lot,
) -> Result<(), AllocError>
    requires given { IsLot given.now }
    requires given_fresh { has_number giver.old.lots given.now.number ≡ false }
    requires giver_room { is_full giver.old.lots ≡ false }
    requires taken { IsLot taken.now }
    requires taken_fresh { has_number taker.old.lots taken.now.number ≡ false }
    requires taker_room { is_full taker.old.lots ≡ false }
    ensures given { OnOk result (giver.new.lots ≡ giver.old.lots ++ given.now ∷ []) }
    ensures taken { OnOk result (taker.new.lots ≡ taker.old.lots ++ taken.now ∷ []) }
    ensures giver_err { OnErr result (giver.new ≡ giver.old) }
    ensures taker_err { OnErr result (taker.new ≡ taker.old) }
    ensures succeeds { giver.old.reserved ≡ true → taker.old.reserved ≡ true → IsOk result }
{
    let was_reserved = taker.is_reserved();
    taker.reserve()?;
    if let Err(refused) = giver.add(given) {
        if !was_reserved {
            taker.give_up_reserved();
        }
        return Err(refused);
    }
    taker.add_reserved(taken);
    Ok(())
}
