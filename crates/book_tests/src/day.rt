//! A short day of two sessions, with each reply, its place and the counts of the sessions.

use crate::shelved::Shelved;
use mgn_ids::{
    AccountName, ContractName, IdFault, LotId, LotQuantity, OriginName, Premium, SessionNo,
};
use mgn_machine::{Command, Mode, Trade};
use mgn_setfile::read_set;
use std::alloc::Global;
use std::process::Abort;
use std::test::Fail;
use worked_sets::fut;

// An origin of one account, a trade, the same again, and a question.
fn commands() -> Result<[Command; 5], IdFault> {
    let (account, origin) = (AccountName::read(b"A1")?, OriginName::read(b"CUST")?);
    let (lot, contract) = (LotId::read(b"1")?, ContractName::read(b"AAA1")?);
    let (quantity, premium) = (LotQuantity::read(b"2")?, Premium::read(b"0")?);
    let trade = Command::Trade(Trade {
        account,
        lot,
        contract,
        quantity,
        premium,
    });
    Ok([
        Command::NewOrigin(origin, Mode::Gross),
        Command::NewAccount(account, origin),
        trade,
        trade,
        Command::Ask(account),
    ])
}

const REPLIES: [&str; 5] = [
    "OK 1\n",
    "OK 2\n",
    "OK 3\n",
    "ERR 4 22 DUP\n",
    "OK 5 600 600 0 0 -600\n",
];

// Two long contracts at a loss of 300 each, and nothing posted.
const STATEMENT: &str = "S A1 CUST GROSS FUT 0\n\
    F 600 600 0 0 -600 600\n\
    G AAA 600 13 0 0 0 0 600\n\
    N 0\n\
    L 1 AAA1 2 0 T\n\
    C CASH 0\n";

// The history tells this reply at a place.
fn check_recalled(rt: &impl Abort, alloc: Global, desk: &Shelved, place: u64, text: &str) {
    let mut out = Vec::new(alloc);
    assert!(rt; desk.recall(place, &mut out));
    assert!(rt; out.as_slice() == text.as_bytes(), "for {text}");
}

// The history tells each reply and its session again, and of no place but those of the entries.
fn check_history(rt: &impl Abort, alloc: Global, desk: &Shelved) {
    for place in 1..6 {
        check_recalled(rt, alloc, desk, place, REPLIES[place as usize - 1]);
        assert_eq!(rt; desk.session(place), Some(if place < 3 { 1 } else { 16 }));
    }
    for place in [0, 6] {
        let mut out = Vec::new(alloc);
        assert!(rt; !desk.recall(place, &mut out));
        assert_eq!(rt; desk.session(place), None);
    }
}

// A command of a session is answered so.
fn check_answer(
    rt: &impl Abort,
    alloc: Global,
    desk: &mut Shelved,
    session: SessionNo,
    command: &Command,
    text: &str,
) {
    let mut out = Vec::new(alloc);
    assert!(rt; desk.answer(session, command, &mut out));
    assert!(rt; out.as_slice() == text.as_bytes(), "for {text}");
}

// Two commands of session 1, and then those of session 16.
fn check_answers(rt: &impl Abort, alloc: Global, desk: &mut Shelved, commands: &[Command]) {
    for (i, (command, text)) in commands.iter().zip(REPLIES.iter()).enumerate() {
        let session = SessionNo::new(if i < 2 { 1 } else { 16 });
        check_answer(rt, alloc, desk, session, command, text);
    }
}

// How many entries each session has, and all of them.
fn check_calls(rt: &impl Abort, desk: &Shelved) {
    assert_eq!(rt; desk.calls(SessionNo::new(1)), 2);
    assert_eq!(rt; desk.calls(SessionNo::new(16)), 3);
    assert_eq!(rt; desk.calls(SessionNo::new(2)), 0);
    assert_eq!(rt; desk.len(), 5);
}

// What is told of the account that there is, and of another one.
fn check_accounts(rt: &impl Abort, alloc: Global, desk: &Shelved) -> Result<(), Fail> {
    let (account, other) = (AccountName::read(b"A1")?, AccountName::read(b"A2")?);
    let mut told = Vec::new(alloc);
    assert!(rt; desk.state(&account, &mut told));
    assert!(rt; told.as_slice() == STATEMENT.as_bytes());
    assert!(rt; !desk.state(&other, &mut told));
    assert_eq!(rt; desk.unit_of(&account), Some(0));
    assert_eq!(rt; desk.unit_of(&other), None);
    Ok(())
}

// The commands are answered, and what is told of them afterwards changes nothing.
fn check_day(rt: &impl Abort, alloc: Global, desk: &mut Shelved) -> Result<(), Fail> {
    check_answers(rt, alloc, desk, &commands()?);
    check_calls(rt, desk);
    check_accounts(rt, alloc, desk)?;
    check_history(rt, alloc, desk);
    check_calls(rt, desk);
    Ok(())
}

#[test]
fn a_day_of_two_sessions(rt: HostRuntime) -> Result<(), Fail> {
    let set = read_set(rt.alloc(), fut().as_bytes())?;
    let mut desk = Shelved::new(rt.alloc(), set)?;
    check_day(&rt, rt.alloc(), &mut desk)
}
