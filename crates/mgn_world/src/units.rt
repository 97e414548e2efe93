//! The units of commands, and who holds them.

ghost use Rattle.std.specs.Prelude.{◌≡◌, ◌<◌, ◌≤◌, length, map, All};
ghost use Rattle.mgn_world.specs.Units.{units_by};
ghost use Rattle.mgn_machine.specs.Refusals.{place_of};
ghost use Rattle.mgn_world.specs.World.{are_free, freed, taken, unit_found, units_found, units_of};

use mgn_book::Book;
use mgn_ids::AccountName;
use mgn_machine::Command;

/// The margin units that a command needs.
#[derive(Clone, Copy)]
pub(crate) enum CommandUnits {
    /// None, or an account is not there.
    Nothing,
    /// That of its account.
    One(usize),
    /// Those of the giver and the taker of a transfer.
    Two(usize, usize),
}

// That of an account.
fn one_unit(book: &Book, account: AccountName) -> CommandUnits
    ensures units { units_by result ≡ unit_found book.now.book.state (place_of book.now.book.state account) }
    ensures within { All (λ u. u < length book.now.book.rows) (units_by result) }
{
    match book.unit_of(&account) {
        Some(unit) => CommandUnits::One(unit),
        None => CommandUnits::Nothing,
    }
}

// Those of a giver and a taker.
fn two_units(book: &Book, from: AccountName, to: AccountName) -> CommandUnits
    ensures units { let state = book.now.book.state in
        units_by result ≡ units_found state (place_of state from) (place_of state to) }
    ensures within { All (λ u. u < length book.now.book.rows) (units_by result) }
{
    match (book.unit_of(&from), book.unit_of(&to)) {
        (Some(giver), Some(taker)) => CommandUnits::Two(giver, taker),
        _ => CommandUnits::Nothing,
    }
}

impl CommandUnits {
    /// The units of a command.
    pub fn of(book: &Book, command: &Command) -> CommandUnits
        ensures units { units_by result ≡ units_of book.now.book.state command.now }
        ensures within { All (λ u. u < length book.now.book.rows) (units_by result) }
    {
        match *command {
            Command::Trade(trade) => one_unit(book, trade.account),
            Command::Bust(account, _) => one_unit(book, account),
            Command::Hold(hold) => one_unit(book, hold.account),
            Command::Fill(fill) => one_unit(book, fill.account),
            Command::Release(account, _) => one_unit(book, account),
            Command::Transfer(transfer) => two_units(book, transfer.from, transfer.to),
            Command::NewOrigin(..)
            | Command::NewAccount(..)
            | Command::Post(..)
            | Command::Draw(..)
            | Command::Ask(_)
            | Command::Total(_)
            | Command::Statement(_)
            | Command::EndDay => CommandUnits::Nothing,
        }
    }

    /// Whether no session holds one of them.
    pub fn are_free(self, locks: &[Option<usize>]) -> bool
        requires { All (λ u. u < length locks.now) (units_by self) }
        ensures { result ≡ are_free locks.now (units_by self) }
    {
        match self {
            CommandUnits::Nothing => true,
            CommandUnits::One(unit) => locks[unit].is_none(),
            CommandUnits::Two(giver, taker) => locks[giver].is_none() && locks[taker].is_none(),
        }
    }

    /// Makes them a session's own.
    pub fn take(self, locks: &mut [Option<usize>], place: usize)
        requires { All (λ u. u < length locks.old) (units_by self) }
        ensures { locks.new ≡ taken place (units_by self) locks.old }
    {
        match self {
            CommandUnits::Nothing => {}
            CommandUnits::One(unit) => locks[unit] = Some(place),
            CommandUnits::Two(giver, taker) => {
                locks[giver] = Some(place);
                locks[taker] = Some(place);
            }
        }
    }
}

// The holder of a unit once a session has given its units back.
fn freed(lock: Option<usize>, place: usize) -> Option<usize>
    ensures { result ≡ freed place lock }
{
    match lock {
        Some(holder) if holder == place => None,
        other => other,
    }
}

/// Gives all units of a session back.
pub(crate) fn free(locks: &mut [Option<usize>], place: usize)
    ensures { locks.new ≡ map (freed place) locks.old }
{
    for unit in 0..locks.len() {
        locks[unit] = freed(locks[unit], place);
    }
}
