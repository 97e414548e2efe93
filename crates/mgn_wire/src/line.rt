ghost use Rattle.std.specs.Prelude.{◌≡◌, map, Ok};
ghost use Rattle.mgn_ids.specs.Amounts.{premium_in, quantity_in, units_in};
ghost use Rattle.mgn_ids.specs.Name.{name_in};
ghost use Rattle.mgn_ids.specs.Number.{number_in};
ghost use Rattle.mgn_machine.specs.declared.command.Command.TheVariants as command;
ghost use Rattle.mgn_wire.specs.Word.{mode_in};
ghost use Rattle.mgn_wire.specs.Line.{◌<*>◌, fill_of, hold_of, line_in, line_of, of_words, reads2, reads3, reads5, trade_of, transfer_of, with_none, with_one, with_two, with_three, with_five};

use crate::fault::LineFault;
use crate::words::{read_mode, split_words};
use mgn_ids::{
    AccountName, ClassName, ContractName, LotId, LotQuantity, OrderId, OriginName, Premium,
    SetName, Units,
};
use mgn_machine::{Command, Fill, Hold, Trade, Transfer};

const LONGEST_LINE: usize = 256;

/// What a line asks for.
#[derive(Clone, Copy)]
pub enum Line {
    /// A command to the book.
    Do(Command),
    /// `SWITCH`: the set of this name is to come into force.
    Switch(SetName),
}

// Each command by its words, from left to right.

fn read_open(account: &[u8], origin: &[u8]) -> Result<Line, LineFault>
    ensures { result ≡ of_words (Ok Line.Do <*> reads2 command.NewAccount (name_in account.now) (name_in origin.now)) }
{
    let account = AccountName::read(account)?;
    let origin = OriginName::read(origin)?;
    Ok(Line::Do(Command::NewAccount(account, origin)))
}

fn read_bust(account: &[u8], lot: &[u8]) -> Result<Line, LineFault>
    ensures { result ≡ of_words (Ok Line.Do <*> reads2 command.Bust (name_in account.now) (number_in lot.now)) }
{
    let account = AccountName::read(account)?;
    let lot = LotId::read(lot)?;
    Ok(Line::Do(Command::Bust(account, lot)))
}

fn read_origin(origin: &[u8], mode: &[u8]) -> Result<Line, LineFault>
    ensures { result ≡ of_words (Ok Line.Do <*> reads2 command.NewOrigin (name_in origin.now) (mode_in mode.now)) }
{
    let origin = OriginName::read(origin)?;
    let mode = read_mode(mode)?;
    Ok(Line::Do(Command::NewOrigin(origin, mode)))
}

fn read_release(account: &[u8], order: &[u8]) -> Result<Line, LineFault>
    ensures { result ≡ of_words (Ok Line.Do <*> reads2 command.Release (name_in account.now) (number_in order.now)) }
{
    let account = AccountName::read(account)?;
    let order = OrderId::read(order)?;
    Ok(Line::Do(Command::Release(account, order)))
}

fn read_draw(account: &[u8], class: &[u8], units: &[u8]) -> Result<Line, LineFault>
    ensures { result ≡ of_words (Ok Line.Do <*> reads3 command.Draw (name_in account.now) (name_in class.now) (units_in units.now)) }
{
    let account = AccountName::read(account)?;
    let class = ClassName::read(class)?;
    let units = Units::read(units)?;
    Ok(Line::Do(Command::Draw(account, class, units)))
}

fn read_post(account: &[u8], class: &[u8], units: &[u8]) -> Result<Line, LineFault>
    ensures { result ≡ of_words (Ok Line.Do <*> reads3 command.Post (name_in account.now) (name_in class.now) (units_in units.now)) }
{
    let account = AccountName::read(account)?;
    let class = ClassName::read(class)?;
    let units = Units::read(units)?;
    Ok(Line::Do(Command::Post(account, class, units)))
}

fn read_trade(
    account: &[u8],
    lot: &[u8],
    contract: &[u8],
    quantity: &[u8],
    premium: &[u8],
) -> Result<Line, LineFault>
    ensures { result ≡ of_words (Ok Line.Do <*> reads5 trade_of (name_in account.now) (number_in lot.now) (name_in contract.now)
        (quantity_in quantity.now) (premium_in premium.now)) }
{
    let account = AccountName::read(account)?;
    let lot = LotId::read(lot)?;
    let contract = ContractName::read(contract)?;
    let quantity = LotQuantity::read(quantity)?;
    let premium = Premium::read(premium)?;
    Ok(Line::Do(Command::Trade(Trade {
        account,
        lot,
        contract,
        quantity,
        premium,
    })))
}

fn read_hold(
    account: &[u8],
    order: &[u8],
    contract: &[u8],
    quantity: &[u8],
    limit: &[u8],
) -> Result<Line, LineFault>
    ensures { result ≡ of_words (Ok Line.Do <*> reads5 hold_of (name_in account.now) (number_in order.now) (name_in contract.now)
        (quantity_in quantity.now) (premium_in limit.now)) }
{
    let account = AccountName::read(account)?;
    let order = OrderId::read(order)?;
    let contract = ContractName::read(contract)?;
    let quantity = LotQuantity::read(quantity)?;
    let limit = Premium::read(limit)?;
    Ok(Line::Do(Command::Hold(Hold {
        account,
        order,
        contract,
        quantity,
        limit,
    })))
}

fn read_fill(
    account: &[u8],
    order: &[u8],
    lot: &[u8],
    quantity: &[u8],
    premium: &[u8],
) -> Result<Line, LineFault>
    ensures { result ≡ of_words (Ok Line.Do <*> reads5 fill_of (name_in account.now) (number_in order.now) (number_in lot.now)
        (quantity_in quantity.now) (premium_in premium.now)) }
{
    let account = AccountName::read(account)?;
    let order = OrderId::read(order)?;
    let lot = LotId::read(lot)?;
    let quantity = LotQuantity::read(quantity)?;
    let premium = Premium::read(premium)?;
    Ok(Line::Do(Command::Fill(Fill {
        account,
        order,
        lot,
        quantity,
        premium,
    })))
}

fn read_transfer(
    lot: &[u8],
    from: &[u8],
    to: &[u8],
    contract: &[u8],
    quantity: &[u8],
) -> Result<Line, LineFault>
    ensures { result ≡ of_words (Ok Line.Do <*> reads5 transfer_of (number_in lot.now) (name_in from.now) (name_in to.now)
        (name_in contract.now) (quantity_in quantity.now)) }
{
    let lot = LotId::read(lot)?;
    let from = AccountName::read(from)?;
    let to = AccountName::read(to)?;
    let contract = ContractName::read(contract)?;
    let quantity = LotQuantity::read(quantity)?;
    Ok(Line::Do(Command::Transfer(Transfer {
        lot,
        from,
        to,
        contract,
        quantity,
    })))
}

// The commands of no word, one, two, three and five words after the verb.

#[tactic(auto, unfolding(crate::specs::Line::with_none))]
fn read_none(verb: &[u8]) -> Result<Line, LineFault>
    ensures { result ≡ of_words (Ok Line.Do <*> with_none verb.now) }
{
    match verb {
        b"END" => Ok(Line::Do(Command::EndDay)),
        _ => Err(LineFault::Syntax),
    }
}

#[tactic(auto, unfolding(crate::specs::Line::with_one))]
fn read_one(verb: &[u8], a: &[u8]) -> Result<Line, LineFault>
    ensures { result ≡ of_words (with_one verb.now a.now) }
{
    if verb == b"ASK".as_slice() {
        let account = AccountName::read(a)?;
        Ok(Line::Do(Command::Ask(account)))
    } else if verb == b"TOTAL".as_slice() {
        let origin = OriginName::read(a)?;
        Ok(Line::Do(Command::Total(origin)))
    } else if verb == b"STMT".as_slice() {
        let account = AccountName::read(a)?;
        Ok(Line::Do(Command::Statement(account)))
    } else if verb == b"SWITCH".as_slice() {
        let set = SetName::read(a)?;
        Ok(Line::Switch(set))
    } else {
        Err(LineFault::Syntax)
    }
}

#[tactic(auto, unfolding(crate::specs::Line::with_two))]
fn read_two(verb: &[u8], a: &[u8], b: &[u8]) -> Result<Line, LineFault>
    ensures { result ≡ of_words (Ok Line.Do <*> with_two verb.now a.now b.now) }
{
    if verb == b"BUST".as_slice() {
        read_bust(a, b)
    } else if verb == b"OPEN".as_slice() {
        read_open(a, b)
    } else if verb == b"ORIGIN".as_slice() {
        read_origin(a, b)
    } else if verb == b"RELEASE".as_slice() {
        read_release(a, b)
    } else {
        Err(LineFault::Syntax)
    }
}

#[tactic(auto, unfolding(crate::specs::Line::with_three))]
fn read_three(verb: &[u8], a: &[u8], b: &[u8], c: &[u8]) -> Result<Line, LineFault>
    ensures { result ≡ of_words (Ok Line.Do <*> with_three verb.now a.now b.now c.now) }
{
    match verb {
        b"POST" => read_post(a, b, c),
        b"DRAW" => read_draw(a, b, c),
        _ => Err(LineFault::Syntax),
    }
}

#[tactic(auto, unfolding(crate::specs::Line::with_five))]
fn read_five(
    verb: &[u8],
    a: &[u8],
    b: &[u8],
    c: &[u8],
    d: &[u8],
    e: &[u8],
) -> Result<Line, LineFault>
    ensures { result ≡ of_words (Ok Line.Do <*> with_five verb.now a.now b.now c.now d.now e.now) }
{
    match verb {
        b"TRADE" => read_trade(a, b, c, d, e),
        b"HOLD" => read_hold(a, b, c, d, e),
        b"FILL" => read_fill(a, b, c, d, e),
        b"MOVE" => read_transfer(a, b, c, d, e),
        _ => Err(LineFault::Syntax),
    }
}

/// What a line, without its line feed, asks for. `Long` where it has more than 256 bytes; else `Syntax` where it is not
/// words by single spaces, the first of them a command's and as many as the command has; else the fault of the leftmost
/// word that is wrong: `Syntax` where it is not spelled rightly, `Range` where a name is too long or a number outside its
/// range. Takes no memory.
#[tactic(auto, unfolding(crate::specs::Line::line_in))]
pub fn read_line(line: &[u8]) -> Result<Line, LineFault>
    ensures { result ≡ line_of line.now }
{
    if line.len() > LONGEST_LINE {
        return Err(LineFault::Long);
    }
    let Some(words) = split_words(line) else {
        return Err(LineFault::Syntax);
    };
    let words = &words.items[..words.count];
    match *words {
        [verb] => read_none(verb),
        [verb, a] => read_one(verb, a),
        [verb, a, b] => read_two(verb, a, b),
        [verb, a, b, c] => read_three(verb, a, b, c),
        [verb, a, b, c, d, e] => read_five(verb, a, b, c, d, e),
        _ => Err(LineFault::Syntax),
    }
}
