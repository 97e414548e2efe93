//! Random commands, by their lines. Names and numbers are few, so that commands meet one another.

use mgn_machine::Command;
use mgn_wire::{Line, read_line};
use rand::RngExt;
use rand::seq::IndexedRandom;
use rand_pcg::Pcg32;
use std::alloc::{AllocError, Global};
use std::test::Fail;

/// Lines that give each of four accounts something to trade with.
pub(crate) const OPENING: &[&str] = &[
    "ORIGIN CUST GROSS",
    "ORIGIN HOUSE NET",
    "OPEN A1 CUST",
    "OPEN A2 CUST",
    "OPEN A3 HOUSE",
    "OPEN A4 HOUSE",
    "POST A1 CASH 1500",
    "POST A2 CASH 500",
    "POST A3 CASH 900",
    "POST A4 CASH 300",
];

/// Lines that ask for all there is to tell.
pub(crate) const CLOSING: &[&str] = &[
    "STMT A1",
    "STMT A2",
    "STMT A3",
    "STMT A4",
    "TOTAL CUST",
    "TOTAL HOUSE",
    "ASK A1",
    "ASK A4",
];

// No account, origin, contract or class has the last name.
const ACCOUNTS: &[&str] = &["A1", "A2", "A3", "A4", "A1", "A2", "A3", "A4", "A1", "A9"];

const ORIGINS: &[&str] = &["CUST", "HOUSE", "CUST", "HOUSE", "NONE"];

const CONTRACTS: &[&str] = &[
    "AAA1", "AAA2", "AAAC", "BBB1", "AAA1", "AAAC", "AAA1", "ZZZ1",
];

const CLASSES: &[&str] = &["CASH", "CASH", "CASH", "CASH", "CASH", "BILL", "NOTE"];

const MODES: &[&str] = &["GROSS", "NET"];

/// The command of a line.
pub(crate) fn command(line: &str) -> Result<Command, Fail> {
    match read_line(line.as_bytes()) {
        Ok(Line::Do(command)) => Ok(command),
        Ok(Line::Switch(_)) | Err(_) => Err(Fail::new("no command")),
    }
}

fn pick(rng: &mut Pcg32, words: &'static [&'static str]) -> &'static str {
    match words.choose(rng) {
        Some(word) => *word,
        None => "",
    }
}

// The number of a lot or an order.
fn number(rng: &mut Pcg32) -> u32 {
    rng.random_range(1u32..20)
}

// Some contracts bought or sold.
fn quantity(rng: &mut Pcg32) -> i32 {
    let size = rng.random_range(1i32..=6);
    if rng.random_ratio(1, 2) { size } else { -size }
}

// A premium or limit, which only options of the premium style have.
fn premium(rng: &mut Pcg32, contract: &str) -> u32 {
    if contract == "AAAC" || rng.random_ratio(1, 20) {
        rng.random_range(0u32..90)
    } else {
        0
    }
}

fn lot_line(alloc: Global, rng: &mut Pcg32, word: &str) -> Result<String, AllocError> {
    let (account, number) = (pick(rng, ACCOUNTS), number(rng));
    let contract = pick(rng, CONTRACTS);
    let (quantity, premium) = (quantity(rng), premium(rng, contract));
    format!(in alloc; "{word} {account} {number} {contract} {quantity} {premium}")
}

fn fill_line(alloc: Global, rng: &mut Pcg32) -> Result<String, AllocError> {
    let (account, order) = (pick(rng, ACCOUNTS), number(rng));
    let (lot, quantity) = (number(rng), quantity(rng));
    let premium = premium(rng, "AAAC");
    format!(in alloc; "FILL {account} {order} {lot} {quantity} {premium}")
}

fn move_line(alloc: Global, rng: &mut Pcg32) -> Result<String, AllocError> {
    let (lot, quantity) = (number(rng), quantity(rng));
    let (from, to) = (pick(rng, ACCOUNTS), pick(rng, ACCOUNTS));
    let contract = pick(rng, CONTRACTS);
    format!(in alloc; "MOVE {lot} {from} {to} {contract} {quantity}")
}

fn collateral_line(alloc: Global, rng: &mut Pcg32, word: &str) -> Result<String, AllocError> {
    let (account, class) = (pick(rng, ACCOUNTS), pick(rng, CLASSES));
    let units = if class == "CASH" {
        rng.random_range(1u32..800)
    } else {
        1
    };
    format!(in alloc; "{word} {account} {class} {units}")
}

fn number_line(alloc: Global, rng: &mut Pcg32, word: &str) -> Result<String, AllocError> {
    let (account, number) = (pick(rng, ACCOUNTS), number(rng));
    format!(in alloc; "{word} {account} {number}")
}

// A question, or what is rare.
fn other_line(alloc: Global, rng: &mut Pcg32) -> Result<String, AllocError> {
    let (account, origin) = (pick(rng, ACCOUNTS), pick(rng, ORIGINS));
    let mode = pick(rng, MODES);
    match rng.random_range(0u32..40) {
        0..=12 => format!(in alloc; "ASK {account}"),
        13..=22 => format!(in alloc; "TOTAL {origin}"),
        23..=30 => format!(in alloc; "STMT {account}"),
        31..=34 => format!(in alloc; "OPEN {account} {origin}"),
        35..=38 => format!(in alloc; "ORIGIN {origin} {mode}"),
        _ => format!(in alloc; "END"),
    }
}

/// The line of some command.
pub(crate) fn line(alloc: Global, rng: &mut Pcg32) -> Result<String, AllocError> {
    match rng.random_range(0u32..100) {
        0..=22 => lot_line(alloc, rng, "TRADE"),
        23..=46 => lot_line(alloc, rng, "HOLD"),
        47..=58 => fill_line(alloc, rng),
        59..=64 => number_line(alloc, rng, "RELEASE"),
        65..=70 => number_line(alloc, rng, "BUST"),
        71..=79 => move_line(alloc, rng),
        80..=83 => collateral_line(alloc, rng, "POST"),
        84..=89 => collateral_line(alloc, rng, "DRAW"),
        _ => other_line(alloc, rng),
    }
}

/// Whether a command has units, so that its call goes on after its Begin.
pub(crate) fn has_units(command: &Command) -> bool {
    matches!(
        command,
        Command::Trade(_)
            | Command::Bust(..)
            | Command::Hold(_)
            | Command::Fill(_)
            | Command::Release(..)
            | Command::Transfer(_)
    )
}
