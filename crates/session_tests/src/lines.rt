//! What lines ask for, and the faults of those that ask for nothing.

use mgn_ids::SetName;
use mgn_machine::{Command, Mode};
use mgn_wire::{Line, LineFault, read_line};

fn command_in(line: &[u8]) -> Option<Command> {
    match &read_line(line) {
        Ok(Line::Do(command)) => Some(*command),
        _ => None,
    }
}

fn set_in(line: &[u8]) -> Option<SetName> {
    match &read_line(line) {
        Ok(Line::Switch(name)) => Some(*name),
        _ => None,
    }
}

fn fault_in(line: &[u8]) -> Option<LineFault> {
    match &read_line(line) {
        Ok(_) => None,
        Err(fault) => Some(*fault),
    }
}

// Whether names have these bytes.
fn spells(name: &[u8], text: &[u8]) -> bool {
    name == text
}

fn is_trade(command: &Command) -> bool {
    match command {
        Command::Trade(trade) => {
            spells(trade.account.as_bytes(), b"A1")
                && trade.lot.number() == 1
                && spells(trade.contract.as_bytes(), b"AAA1")
                && trade.quantity.quantity().contracts() == -2
                && trade.premium.cents() == 0
        }
        _ => false,
    }
}

fn is_hold(command: &Command) -> bool {
    match command {
        Command::Hold(hold) => {
            spells(hold.account.as_bytes(), b"A1")
                && hold.order.number() == 7
                && spells(hold.contract.as_bytes(), b"AAA1")
                && hold.quantity.quantity().contracts() == -2
                && hold.limit.cents() == 50
        }
        _ => false,
    }
}

fn is_fill(command: &Command) -> bool {
    match command {
        Command::Fill(fill) => {
            spells(fill.account.as_bytes(), b"A1")
                && fill.order.number() == 7
                && fill.lot.number() == 8
                && fill.quantity.quantity().contracts() == -2
                && fill.premium.cents() == 50
        }
        _ => false,
    }
}

fn is_transfer(command: &Command) -> bool {
    match command {
        Command::Transfer(transfer) => {
            transfer.lot.number() == 9
                && spells(transfer.from.as_bytes(), b"A1")
                && spells(transfer.to.as_bytes(), b"A2")
                && spells(transfer.contract.as_bytes(), b"AAA1")
                && transfer.quantity.quantity().contracts() == -2
        }
        _ => false,
    }
}

// Whether it is a bust of lot 8, or a release of order 7, of A1.
fn is_bust(command: &Command) -> bool {
    match command {
        Command::Bust(account, lot) => spells(account.as_bytes(), b"A1") && lot.number() == 8,
        _ => false,
    }
}

fn is_release(command: &Command) -> bool {
    match command {
        Command::Release(account, order) => {
            spells(account.as_bytes(), b"A1") && order.number() == 7
        }
        _ => false,
    }
}

// Whether these units of a class are posted, or drawn, by A1.
fn is_post(command: &Command) -> bool {
    match command {
        Command::Post(account, class, units) => {
            spells(account.as_bytes(), b"A1")
                && spells(class.as_bytes(), b"CASH")
                && units.number() == 1000
        }
        _ => false,
    }
}

fn is_draw(command: &Command) -> bool {
    match command {
        Command::Draw(account, class, units) => {
            spells(account.as_bytes(), b"A1")
                && spells(class.as_bytes(), b"BND")
                && units.number() == 3
        }
        _ => false,
    }
}

// The names of a command that has no numbers, with a letter for each way to margin an origin.
fn named(command: &Command, first: &[u8], second: &[u8]) -> bool {
    match command {
        Command::NewOrigin(origin, Mode::Gross) => {
            spells(origin.as_bytes(), first) && spells(b"G", second)
        }
        Command::NewOrigin(origin, Mode::Net) => {
            spells(origin.as_bytes(), first) && spells(b"N", second)
        }
        Command::NewAccount(account, origin) => {
            spells(account.as_bytes(), first) && spells(origin.as_bytes(), second)
        }
        Command::Ask(account) | Command::Statement(account) => {
            spells(account.as_bytes(), first) && spells(b"", second)
        }
        Command::Total(origin) => spells(origin.as_bytes(), first) && spells(b"", second),
        _ => false,
    }
}

#[test]
fn reads_commands_with_numbers(rt: HostRuntime) {
    let trade = command_in(b"TRADE A1 1 AAA1 -2 0");
    assert!(rt; trade.is_some_and(|command| is_trade(&command)));
    let hold = command_in(b"HOLD A1 7 AAA1 -2 50");
    assert!(rt; hold.is_some_and(|command| is_hold(&command)));
    let fill = command_in(b"FILL A1 7 8 -2 50");
    assert!(rt; fill.is_some_and(|command| is_fill(&command)));
    let transfer = command_in(b"MOVE 9 A1 A2 AAA1 -2");
    assert!(rt; transfer.is_some_and(|command| is_transfer(&command)));
    let bust = command_in(b"BUST A1 8");
    assert!(rt; bust.is_some_and(|command| is_bust(&command)));
    let release = command_in(b"RELEASE A1 7");
    assert!(rt; release.is_some_and(|command| is_release(&command)));
    let post = command_in(b"POST A1 CASH 1000");
    assert!(rt; post.is_some_and(|command| is_post(&command)));
    let draw = command_in(b"DRAW A1 BND 3");
    assert!(rt; draw.is_some_and(|command| is_draw(&command)));
}

#[test]
fn reads_commands_of_names(rt: HostRuntime) {
    let gross = command_in(b"ORIGIN CUST GROSS");
    assert!(rt; gross.is_some_and(|command| named(&command, b"CUST", b"G")));
    let net = command_in(b"ORIGIN HOUSE NET");
    assert!(rt; net.is_some_and(|command| named(&command, b"HOUSE", b"N")));
    let account = command_in(b"OPEN A1 CUST");
    assert!(rt; account.is_some_and(|command| named(&command, b"A1", b"CUST")));
    let ask = command_in(b"ASK A1");
    assert!(rt; matches!(&ask, Some(Command::Ask(_))));
    assert!(rt; ask.is_some_and(|command| named(&command, b"A1", b"")));
    let total = command_in(b"TOTAL CUST");
    assert!(rt; total.is_some_and(|command| named(&command, b"CUST", b"")));
    let statement = command_in(b"STMT A1");
    assert!(rt; matches!(&statement, Some(Command::Statement(_))));
    assert!(rt; statement.is_some_and(|command| named(&command, b"A1", b"")));
    assert!(rt; matches!(&command_in(b"END"), Some(Command::EndDay)));
    let switch = set_in(b"SWITCH TWO");
    assert!(rt; switch.is_some_and(|name| name.as_bytes() == b"TWO".as_slice()));
    assert!(rt; set_in(b"ASK A1").is_none() && command_in(b"SWITCH TWO").is_none());
}

#[test]
fn tells_faults(rt: HostRuntime) {
    let cases = [
        ("", LineFault::Syntax),
        ("ASK", LineFault::Syntax),
        ("ASK  A1", LineFault::Syntax),
        ("ASK A1 ", LineFault::Syntax),
        ("TOTAL", LineFault::Syntax),
        ("TOTAL cust", LineFault::Syntax),
        ("TOTAL CUST A1", LineFault::Syntax),
        ("TOTAL AAAAAAAAAAAAAAAAA", LineFault::Range),
        ("STMT", LineFault::Syntax),
        ("STMT a1", LineFault::Syntax),
        ("STMT A1 A2", LineFault::Syntax),
        ("STMT AAAAAAAAAAAAAAAAA", LineFault::Range),
        ("SWITCH", LineFault::Syntax),
        ("SWITCH one", LineFault::Syntax),
        ("SWITCH ONE TWO", LineFault::Syntax),
        ("SWITCH AAAAAAAAAAAAAAAAA", LineFault::Range),
        ("ask A1", LineFault::Syntax),
        ("ASK A1\r", LineFault::Syntax),
        ("TRADE A1 1 AAA1 +2 0", LineFault::Syntax),
        ("TRADE A1 01 AAA1 2 0", LineFault::Syntax),
        ("TRADE A1 1 AAA1 -0 0", LineFault::Syntax),
        ("TRADE A1 0 AAA1 2 x", LineFault::Range),
        ("TRADE A1 -5 AAA1 2 0", LineFault::Range),
        ("TRADE A1 1 AAA1 0 0", LineFault::Range),
        ("TRADE A1 1 AAA1 1000001 0", LineFault::Range),
        ("MOVE 9 A1 A2 AAA1 0", LineFault::Range),
        ("MOVE 9 A1 A2 AAA1", LineFault::Syntax),
        ("MOVE 0 a1 A2 AAA1 1", LineFault::Range),
        ("MOVE 9 a1 A2 AAA1 0", LineFault::Syntax),
        ("MOVE A1 A2 9 AAA1 1", LineFault::Syntax),
        ("OPEN AAAAAAAAAAAAAAAAA a", LineFault::Range),
        ("ORIGIN a AAAAAAAAAAAAAAAAA", LineFault::Syntax),
        ("ORIGIN AAAAAAAAAAAAAAAAA FOO", LineFault::Range),
    ];
    for (line, fault) in cases {
        assert!(rt; fault_in(line.as_bytes()) == Some(fault), "for {line}");
    }
    assert!(rt; fault_in([b'A'; 256].as_slice()) == Some(LineFault::Syntax));
    assert!(rt; fault_in([b'A'; 257].as_slice()) == Some(LineFault::Long));
}
