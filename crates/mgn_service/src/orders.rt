//! The orders that a session held.

ghost use Rattle.std.specs.Prelude.{◌≡◌};

use mgn_ledger::{Image, Pass};
use mgn_machine::{Command, Hold};
use mgn_slots::SlotNames;

/// The order that a command releases or fills, as the session held it.
pub(crate) fn order_of<T: Image, J: SlotNames>(
    pass: &Pass<'_, T, J>,
    command: &Command,
) -> Option<Hold> {
    match command {
        Command::Release(account, order) => pass.known_order(account, *order),
        Command::Fill(fill) => pass.known_order(&fill.account, fill.order),
        _ => None,
    }
}

/// Keeps an order that a command has the book hold, for the session's later calls.
pub(crate) fn keep_order<T: Image, J: SlotNames>(pass: &mut Pass<'_, T, J>, command: &Command)
    ensures { pass.new ≡ pass.old }
{
    if let Command::Hold(hold) = command {
        pass.keep_order(hold);
    }
}
