//! The margin units that a command names.

ghost use Rattle.std.specs.Prelude.{◌≡◌};

use mgn_ids::AccountName;
use mgn_ledger::{Image, Ledger, Pass};
use mgn_machine::Command;
use mgn_slots::SlotNames;
use mgn_table::TableName;

/// Whose units a command changes: none, or those of one or two accounts.
#[derive(Clone, Copy)]
enum Named {
    Nobody,
    One(AccountName),
    Two(AccountName, AccountName),
}

/// The units whose locks a call takes.
#[derive(Clone, Copy, PartialEq, Eq, Debug)]
pub(crate) enum CommandUnits {
    Nothing,
    One(usize),
    /// Of a transfer between two units: the giver's and the taker's.
    Two(usize, usize),
}

// The accounts whose lots or holds a command changes.
fn named_by(command: &Command) -> Named {
    match command {
        Command::Trade(trade) => Named::One(trade.account),
        Command::Bust(account, _) | Command::Release(account, _) => Named::One(*account),
        Command::Hold(hold) => Named::One(hold.account),
        Command::Fill(fill) => Named::One(fill.account),
        Command::Transfer(transfer) => Named::Two(transfer.from, transfer.to),
        Command::NewOrigin(_, _)
        | Command::NewAccount(_, _)
        | Command::Post(_, _, _)
        | Command::Draw(_, _, _)
        | Command::Ask(_)
        | Command::Total(_)
        | Command::Statement(_)
        | Command::EndDay => Named::Nobody,
    }
}

// The unit of one account, if it is there.
fn of_one(unit: Option<usize>) -> CommandUnits {
    match unit {
        Some(unit) => CommandUnits::One(unit),
        None => CommandUnits::Nothing,
    }
}

// The units of a giver and a taker, if both are there: one where they are the same.
fn of_two(giver: Option<usize>, taker: Option<usize>) -> CommandUnits {
    match (giver, taker) {
        (Some(giver), Some(taker)) if giver == taker => CommandUnits::One(giver),
        (Some(giver), Some(taker)) => CommandUnits::Two(giver, taker),
        _ => CommandUnits::Nothing,
    }
}

/// The units of the accounts that a command names, if it names any and earlier calls of the pass found all of them.
pub(crate) fn known_units<T: Image, J: SlotNames>(
    pass: &Pass<'_, T, J>,
    command: &Command,
) -> CommandUnits {
    match named_by(command) {
        Named::Nobody => CommandUnits::Nothing,
        Named::One(account) => of_one(pass.known_unit(&account)),
        Named::Two(from, to) => of_two(pass.known_unit(&from), pass.known_unit(&to)),
    }
}

/// Keeps the units of the accounts that a command names for later calls of the pass. Of one account that is the giver's.
pub(crate) fn keep_units<T: Image, J: SlotNames>(
    pass: &mut Pass<'_, T, J>,
    command: &Command,
    giver: usize,
    taker: usize,
)
    ensures { pass.new ≡ pass.old }
{
    match named_by(command) {
        Named::Nobody => {}
        Named::One(account) => pass.keep_unit(account, giver),
        Named::Two(from, to) => {
            pass.keep_unit(from, giver);
            pass.keep_unit(to, taker);
        }
    }
}

/// The units of a command's accounts, if it has any and all of them are there.
pub(crate) fn units_of<T: Image, J: TableName + SlotNames>(
    ledger: &Ledger<'_, T, J>,
    command: &Command,
) -> CommandUnits {
    match named_by(command) {
        Named::Nobody => CommandUnits::Nothing,
        Named::One(account) => of_one(ledger.unit_of(&account)),
        Named::Two(from, to) => of_two(ledger.unit_of(&from), ledger.unit_of(&to)),
    }
}
