//! A statement that is shared.

use crate::shelved::Shelved;
use mgn_ids::SessionNo;
use mgn_machine::{Answer, Command, Reply, Request, SharedStatement};
use mgn_setfile::read_set;
use mgn_wire::{Line, read_line, statement_text};
use std::alloc::Global;
use std::process::Abort;
use std::test::Fail;
use worked_sets::one;

const LINES: [&str; 5] = [
    "ORIGIN CUST GROSS",
    "OPEN A1 CUST",
    "TRADE A1 1 AAA1 2 0",
    "TRADE A1 2 AAA2 -2 0",
    "ASK A1",
];

const STATEMENT: &str = "S A1 CUST GROSS ONE 0\n\
    F 140 140 0 0 -140 140\n\
    G AAA 60 13 80 0 0 0 140\n\
    N 0\n\
    L 1 AAA1 2 0 T\n\
    L 2 AAA2 -2 0 T\n\
    C CASH 0\n";

fn command(line: &str) -> Result<Command, Fail> {
    match read_line(line.as_bytes()) {
        Ok(Line::Do(command)) => Ok(command),
        Ok(Line::Switch(_)) | Err(_) => Err(Fail::new("no command")),
    }
}

// What a book answers to a line of session 1.
fn answered(book: &mut Shelved, line: &str) -> Result<Answer, Fail> {
    match book.commit(SessionNo::new(1), Request::Do(command(line)?)) {
        Some(answer) => Ok(answer),
        None => Err(Fail::new("no answer")),
    }
}

// The statement of a spread between months.
fn told(book: &mut Shelved) -> Result<SharedStatement, Fail> {
    for line in LINES {
        drop(answered(book, line)?);
    }
    match answered(book, "STMT A1")?.reply {
        Reply::Statement(statement) => Ok(statement),
        _ => Err(Fail::new("no statement")),
    }
}

// The statement is told from one that is shared, also where that was shared from it and is gone.
fn check_shared(rt: &impl Abort, alloc: Global, statement: &SharedStatement) -> Result<(), Fail> {
    drop(statement.share()?);
    let shared = statement.share()?;
    let mut out = Vec::new(alloc);
    statement_text(shared.statement(), &mut out)?;
    assert!(rt; out.as_slice() == STATEMENT.as_bytes());
    Ok(())
}

#[test]
fn a_statement_is_shared(rt: HostRuntime) -> Result<(), Fail> {
    let set = read_set(rt.alloc(), one().as_bytes())?;
    let mut book = Shelved::new(rt.alloc(), set)?;
    let statement = told(&mut book)?;
    check_shared(&rt, rt.alloc(), &statement)
}
