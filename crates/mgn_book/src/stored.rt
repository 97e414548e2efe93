//! What an entry of the history is stored as.

ghost use Rattle.std.specs.Prelude.{◌≡◌, ◌<◌, ◌≤◌, List, true};
ghost use Rattle.mgn_machine.specs.declared.request.Recorded.TheVariants.{Asked};
ghost use Rattle.mgn_params.specs.Tables.{Tables};
ghost use Rattle.mgn_book.specs.BookViews.{command_of};
ghost use Rattle.mgn_book.specs.History.{AddsFew, AreFew, HasRoom, IsNamed, is_fill_or_transfer, is_order, KeepsNames, recorded_of, sets_needed};

use crate::names::{Likely, Names};
use crate::numbers::ThreeBytes;
use crate::replies::StoredReply;
use mgn_ids::{LotId, LotQuantity, OrderId, OriginName, Premium, SessionNo, ShortId, Units};
use mgn_machine::{Command, Fill, Hold, Mode, Trade, Transfer};
use mgn_params::Version;

// A request, with the places of its names, and of a refused set, in lists of these. Fields lie as they are listed here,
// so that none takes more than 24 bytes.
#[derive(Clone, Copy)]
pub(crate) enum StoredRequest {
    NewOrigin(OriginName, Mode),
    NewAccount {
        origin: OriginName,
        account: u32,
    },
    Trade {
        lot: ShortId,
        account: u32,
        contract: u32,
        quantity: LotQuantity,
        premium: Premium,
    },
    Bust(u32, LotId),
    Hold {
        order: ShortId,
        account: u32,
        contract: u32,
        quantity: LotQuantity,
        limit: Premium,
    },
    Fill {
        order: ShortId,
        lot: ShortId,
        account: u32,
        quantity: LotQuantity,
        premium: Premium,
    },
    Release(u32, OrderId),
    Transfer {
        lot: ShortId,
        from: u32,
        to: u32,
        contract: u32,
        quantity: LotQuantity,
    },
    Post {
        class: u32,
        account: u32,
        units: Units,
    },
    Draw {
        class: u32,
        account: u32,
        units: Units,
    },
    Ask(u32),
    Total(OriginName),
    Statement(u32),
    EndDay,
    InForce(Version),
    SetRefused(usize),
}

// An entry without what few entries have or many share, and what would take more memory than all the rest of it: names,
// figures, totals, a statement, a set that was refused.
#[derive(Clone, Copy)]
pub(crate) struct StoredEntry {
    pub request: StoredRequest,
    pub session: SessionNo,
    pub number: ThreeBytes,
    pub reply: StoredReply,
}

const _: () = prove!(size_of::<StoredEntry>() == 32);

fn store_trade(names: &mut Names, trade: &Trade, likely: &Likely) -> StoredRequest
    requires room { HasRoom names.old }
    requires few { AreFew 1000000 names.old }
    ensures kept { KeepsNames names.old names.new }
    ensures named { IsNamed names.new result }
    ensures request { (sets : List Tables) →
        recorded_of names.new sets result ≡ Asked (Command.Trade trade.now) }
    ensures no_set { sets_needed result ≡ 0 }
    ensures few { AddsFew names.old names.new }
{
    StoredRequest::Trade {
        lot: ShortId::of_lot(trade.lot),
        account: names.place_of_account(trade.account, likely.account),
        contract: names.place_of_contract(trade.contract, likely.contract),
        quantity: trade.quantity,
        premium: trade.premium,
    }
}

fn store_hold(names: &mut Names, hold: &Hold, likely: &Likely) -> StoredRequest
    requires room { HasRoom names.old }
    requires few { AreFew 1000000 names.old }
    ensures kept { KeepsNames names.old names.new }
    ensures named { IsNamed names.new result }
    ensures request { (sets : List Tables) →
        recorded_of names.new sets result ≡ Asked (Command.Hold hold.now) }
    ensures no_set { sets_needed result ≡ 0 }
    ensures few { AddsFew names.old names.new }
{
    StoredRequest::Hold {
        order: ShortId::of_order(hold.order),
        account: names.place_of_account(hold.account, likely.account),
        contract: names.place_of_contract(hold.contract, likely.contract),
        quantity: hold.quantity,
        limit: hold.limit,
    }
}

fn store_fill(names: &mut Names, fill: &Fill, likely: &Likely) -> StoredRequest
    requires room { HasRoom names.old }
    requires few { AreFew 1000000 names.old }
    ensures kept { KeepsNames names.old names.new }
    ensures named { IsNamed names.new result }
    ensures request { (sets : List Tables) →
        recorded_of names.new sets result ≡ Asked (Command.Fill fill.now) }
    ensures no_set { sets_needed result ≡ 0 }
    ensures few { AddsFew names.old names.new }
{
    StoredRequest::Fill {
        order: ShortId::of_order(fill.order),
        lot: ShortId::of_lot(fill.lot),
        account: names.place_of_account(fill.account, likely.account),
        quantity: fill.quantity,
        premium: fill.premium,
    }
}

fn store_transfer(names: &mut Names, transfer: &Transfer, likely: &Likely) -> StoredRequest
    requires room { HasRoom names.old }
    requires few { AreFew 1000000 names.old }
    ensures kept { KeepsNames names.old names.new }
    ensures named { IsNamed names.new result }
    ensures request { (sets : List Tables) →
        recorded_of names.new sets result ≡ Asked (Command.Transfer transfer.now) }
    ensures no_set { sets_needed result ≡ 0 }
    ensures few { AddsFew names.old names.new }
{
    StoredRequest::Transfer {
        lot: ShortId::of_lot(transfer.lot),
        from: names.place_of_account(transfer.from, likely.account),
        to: names.place_of_account(transfer.to, likely.account),
        contract: names.place_of_contract(transfer.contract, likely.contract),
        quantity: transfer.quantity,
    }
}

/// A command with the places of its names, which are added where they are not there.
pub(crate) fn store_command(names: &mut Names, command: &Command, likely: &Likely) -> StoredRequest
    requires room { HasRoom names.old }
    requires few { AreFew 1000000 names.old }
    ensures kept { KeepsNames names.old names.new }
    ensures named { IsNamed names.new result }
    ensures request { (sets : List Tables) → recorded_of names.new sets result ≡ Asked command.now }
    ensures no_set { sets_needed result ≡ 0 }
    ensures few { AddsFew names.old names.new }
{
    match command {
        Command::NewOrigin(origin, mode) => StoredRequest::NewOrigin(*origin, *mode),
        Command::NewAccount(account, origin) => StoredRequest::NewAccount {
            origin: *origin,
            account: names.place_of_account(*account, likely.account),
        },
        Command::Trade(trade) => store_trade(names, trade, likely),
        Command::Bust(account, lot) => StoredRequest::Bust(
            names.place_of_account(*account, likely.account),
            *lot,
        ),
        Command::Hold(hold) => store_hold(names, hold, likely),
        Command::Fill(fill) => store_fill(names, fill, likely),
        Command::Release(account, order) => {
            StoredRequest::Release(names.place_of_account(*account, likely.account), *order)
        }
        Command::Transfer(transfer) => store_transfer(names, transfer, likely),
        Command::Post(account, class, units) => StoredRequest::Post {
            class: names.place_of_class(*class),
            account: names.place_of_account(*account, likely.account),
            units: *units,
        },
        Command::Draw(account, class, units) => StoredRequest::Draw {
            class: names.place_of_class(*class),
            account: names.place_of_account(*account, likely.account),
            units: *units,
        },
        Command::Ask(account) => StoredRequest::Ask(names.place_of_account(
            *account,
            likely.account,
        )),
        Command::Total(origin) => StoredRequest::Total(*origin),
        Command::Statement(account) => StoredRequest::Statement(names.place_of_account(
            *account,
            likely.account,
        )),
        Command::EndDay => StoredRequest::EndDay,
    }
}

// The command of a request that is of a trade or a held order.
fn order_in(names: &Names, stored: StoredRequest) -> Command
    requires named { IsNamed names.now stored }
    requires order { is_order stored ≡ true }
    ensures { (sets : List Tables) → Asked result ≡ recorded_of names.now sets stored }
{
    match stored {
        StoredRequest::Trade {
            account,
            contract,
            quantity,
            premium,
            lot,
        } => Command::Trade(Trade {
            account: names.account(account),
            lot: lot.lot(),
            contract: names.contract(contract),
            quantity,
            premium,
        }),
        StoredRequest::Hold {
            account,
            contract,
            quantity,
            limit,
            order,
        } => Command::Hold(Hold {
            account: names.account(account),
            order: order.order(),
            contract: names.contract(contract),
            quantity,
            limit,
        }),
        _ => unreachable!(),
    }
}

// The command of a request that is of a fill or a transfer.
fn fill_or_transfer_in(names: &Names, stored: StoredRequest) -> Command
    requires named { IsNamed names.now stored }
    requires kind { is_fill_or_transfer stored ≡ true }
    ensures { (sets : List Tables) → Asked result ≡ recorded_of names.now sets stored }
{
    match stored {
        StoredRequest::Fill {
            account,
            order,
            lot,
            quantity,
            premium,
        } => Command::Fill(Fill {
            account: names.account(account),
            order: order.order(),
            lot: lot.lot(),
            quantity,
            premium,
        }),
        StoredRequest::Transfer {
            from,
            to,
            contract,
            quantity,
            lot,
        } => Command::Transfer(Transfer {
            lot: lot.lot(),
            from: names.account(from),
            to: names.account(to),
            contract: names.contract(contract),
            quantity,
        }),
        _ => unreachable!(),
    }
}

/// The command that is stored, none where a switch is.
pub(crate) fn command_in(names: &Names, stored: StoredRequest) -> Option<Command>
    requires { IsNamed names.now stored }
    ensures { (sets : List Tables) → result ≡ command_of (recorded_of names.now sets stored) }
{
    match stored {
        StoredRequest::NewOrigin(origin, mode) => Some(Command::NewOrigin(origin, mode)),
        StoredRequest::NewAccount { origin, account } => {
            Some(Command::NewAccount(names.account(account), origin))
        }
        StoredRequest::Bust(account, lot) => Some(Command::Bust(names.account(account), lot)),
        StoredRequest::Release(account, order) => {
            Some(Command::Release(names.account(account), order))
        }
        StoredRequest::Post {
            class,
            account,
            units,
        } => Some(Command::Post(names.account(account), names.class(class), units)),
        StoredRequest::Draw {
            class,
            account,
            units,
        } => Some(Command::Draw(names.account(account), names.class(class), units)),
        StoredRequest::Ask(account) => Some(Command::Ask(names.account(account))),
        StoredRequest::Total(origin) => Some(Command::Total(origin)),
        StoredRequest::Statement(account) => Some(Command::Statement(names.account(account))),
        StoredRequest::EndDay => Some(Command::EndDay),
        StoredRequest::InForce(_) | StoredRequest::SetRefused(_) => None,
        StoredRequest::Trade { .. } | StoredRequest::Hold { .. } => Some(order_in(names, stored)),
        StoredRequest::Fill { .. } | StoredRequest::Transfer { .. } => {
            Some(fill_or_transfer_in(names, stored))
        }
    }
}
