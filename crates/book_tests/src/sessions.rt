//! Worked sessions whose lines a script reads from memory, and whose replies it writes there.

ghost use Rattle.std.specs.Prelude.{◌≡◌};
ghost use Rattle.mgn_book.specs.BookViews.{opening};

use crate::random::first_difference;
use crate::script::{answered, text_of};
use mgn_script::Plain;
use mgn_setfile::read_set;
use std::alloc::{AllocError, Global};
use std::process::Abort;
use std::test::Fail;

// What a session shows, the set under which it begins, and its lines, each with its reply. What has no arrow is a
// further line of the reply before it.
type Session = (&'static str, &'static str, &'static str);

const SESSIONS: [Session; 21] = [
    (
        "nothing is held",
        "ONE",
        "\
ORIGIN CUST GROSS -> OK 1
OPEN A1 CUST -> OK 2
ASK A1 -> OK 3 0 0 0 0 0
",
    ),
    (
        "a spread between months, and its statement",
        "ONE",
        "\
ORIGIN CUST GROSS -> OK 1
OPEN A1 CUST -> OK 2
TRADE A1 1 AAA1 2 0 -> OK 3
TRADE A1 2 AAA2 -2 0 -> OK 4
ASK A1 -> OK 5 140 140 0 0 -140
STMT A1 -> OK 6 7
S A1 CUST GROSS ONE 0
F 140 140 0 0 -140 140
G AAA 60 13 80 0 0 0 140
N 0
L 1 AAA1 2 0 T
L 2 AAA2 -2 0 T
C CASH 0
",
    ),
    (
        "a spread between commodities, and its statement",
        "ONE",
        "\
ORIGIN CUST GROSS -> OK 1
OPEN A1 CUST -> OK 2
TRADE A1 1 AAA1 1 0 -> OK 3
TRADE A1 2 BBB1 -2 0 -> OK 4
ASK A1 -> OK 5 300 300 0 0 -300
STMT A1 -> OK 6 8
S A1 CUST GROSS ONE 0
F 300 300 0 0 -300 300
G AAA 300 13 0 0 150 0 150
G BBB 300 11 0 0 150 0 150
N 0
L 1 AAA1 1 0 T
L 2 BBB1 -2 0 T
C CASH 0
",
    ),
    (
        "a short call",
        "ONE",
        "\
ORIGIN CUST GROSS -> OK 1
OPEN A1 CUST -> OK 2
TRADE A1 1 AAAC -1 0 -> OK 3
ASK A1 -> OK 4 280 280 0 0 -280
",
    ),
    (
        "a long call",
        "ONE",
        "\
ORIGIN CUST GROSS -> OK 1
OPEN A1 CUST -> OK 2
TRADE A1 1 AAAC 1 0 -> OK 3
ASK A1 -> OK 4 0 0 0 0 0
",
    ),
    (
        "an order takes all room, and its statement",
        "ONE",
        "\
ORIGIN CUST GROSS -> OK 1
OPEN A1 CUST -> OK 2
POST A1 CASH 900 -> OK 3
HOLD A1 7 AAA1 3 0 -> OK 4
HOLD A1 8 AAA1 1 0 -> ERR 5 30 NOROOM
ASK A1 -> OK 6 0 900 900 900 0
POST A1 BILL 3 -> OK 7
STMT A1 -> OK 8 6
S A1 CUST GROSS ONE 0
F 0 900 29854 29854 28954 0
N 0
O 7 AAA1 3 0
C CASH 900
C BILL 3 28954
",
    ),
    (
        "held buys and held sales cover one another nowhere",
        "ONE",
        "\
ORIGIN CUST GROSS -> OK 1
OPEN A1 CUST -> OK 2
POST A1 CASH 900 -> OK 3
HOLD A1 1 AAA1 3 0 -> OK 4
HOLD A1 2 AAA1 -3 0 -> OK 5
ASK A1 -> OK 6 0 900 900 900 0
RELEASE A1 2 -> OK 7
ASK A1 -> OK 8 0 900 900 900 0
HOLD A1 3 AAA1 -3 0 -> OK 9
HOLD A1 4 AAA1 3 0 -> ERR 10 30 NOROOM
RELEASE A1 3 -> OK 11
ASK A1 -> OK 12 0 900 900 900 0
",
    ),
    (
        "a premium taken back, and its lot's number kept",
        "ONE",
        "\
ORIGIN CUST GROSS -> OK 1
OPEN A1 CUST -> OK 2
TRADE A1 1 AAAC 10 60 -> OK 3
ASK A1 -> OK 4 0 0 -600 -600 -600
BUST A1 1 -> OK 5
ASK A1 -> OK 6 0 0 0 0 0
BUST A1 1 -> ERR 7 24 NOTRADE
TRADE A1 1 AAAC 10 60 -> ERR 8 22 DUP
",
    ),
    (
        "fills keep to the limit of their order",
        "ONE",
        "\
ORIGIN CUST GROSS -> OK 1
OPEN A1 CUST -> OK 2
POST A1 CASH 1000 -> OK 3
HOLD A1 5 AAAC 4 60 -> OK 4
ASK A1 -> OK 5 0 0 1000 760 760
FILL A1 5 1 5 60 -> ERR 6 33 OVER
FILL A1 5 1 4 61 -> ERR 7 32 PREMIUM
FILL A1 5 1 4 60 -> OK 8
ASK A1 -> OK 9 0 0 760 760 760
FILL A1 5 2 1 60 -> ERR 10 25 NOORDER
",
    ),
    (
        "totals of customers, each margined by itself",
        "ONE",
        "\
ORIGIN CUST GROSS -> OK 1
OPEN A1 CUST -> OK 2
OPEN A2 CUST -> OK 3
TRADE A1 1 AAA1 1 0 -> OK 4
TRADE A2 1 AAA1 -1 0 -> OK 5
TOTAL CUST -> OK 6 600 0 600 2
",
    ),
    (
        "totals of a netted origin",
        "ONE",
        "\
ORIGIN CUST NET -> OK 1
OPEN A1 CUST -> OK 2
OPEN A2 CUST -> OK 3
TRADE A1 1 AAA1 1 0 -> OK 4
TRADE A2 1 AAA1 -1 0 -> OK 5
TOTAL CUST -> OK 6 0 0 0 2
",
    ),
    (
        "a transfer between two units, where both have room",
        "ONE",
        "\
ORIGIN CUST GROSS -> OK 1
OPEN A1 CUST -> OK 2
OPEN A2 CUST -> OK 3
TRADE A1 1 AAA1 1 0 -> OK 4
POST A2 CASH 299 -> OK 5
MOVE 9 A1 A2 AAA1 1 -> ERR 6 30 NOROOM
POST A2 CASH 1 -> OK 7
MOVE 9 A1 A2 AAA1 1 -> OK 8
ASK A1 -> OK 9 0 0 0 0 0
ASK A2 -> OK 10 300 300 300 300 0
BUST A2 9 -> ERR 11 35 MOVED
ORIGIN HOUSE NET -> OK 12
OPEN H1 HOUSE -> OK 13
MOVE 10 A2 H1 AAA1 1 -> ERR 14 34 ORIGIN
",
    ),
    (
        "sets without a file, and files that are no sets, have no entry",
        "ONE",
        "\
SWITCH NOPE -> ERR 40 NOSET
SWITCH CUT -> ERR 41 BADSET 7
SWITCH MONTH -> ERR 41 BADSET 7
ORIGIN CUST GROSS -> OK 1
",
    ),
    (
        "a set without a lot's contract",
        "ONE",
        "\
ORIGIN CUST GROSS -> OK 1
OPEN A1 CUST -> OK 2
TRADE A1 1 BBB1 1 0 -> OK 3
SWITCH FUT -> ERR 4 42 MISSING
BUST A1 1 -> OK 5
SWITCH FUT -> OK 6 1 0
TRADE A1 2 BBB1 1 0 -> ERR 7 23 NOCONTRACT
",
    ),
    (
        "faulty lines, after which the next is read",
        "ONE",
        "\
ASK AAAAAAAAAAAAAAAAAAAAAAAAAAAAAAAAAAAAAAAAAAAAAAAAAAAAAAAAAAAAAAAAAAAAAAAAAAAAAAAAAAAA\
AAAAAAAAAAAAAAAAAAAAAAAAAAAAAAAAAAAAAAAAAAAAAAAAAAAAAAAAAAAAAAAAAAAAAAAAAAAAAAAAAAAA\
AAAAAAAAAAAAAAAAAAAAAAAAAAAAAAAAAAAAAAAAAAAAAAAAAAAAAAAAAAAAAAAAAAAAAAAAAAAAAAAAAAAA -> ERR 12 RANGE
ASK AAAAAAAAAAAAAAAAAAAAAAAAAAAAAAAAAAAAAAAAAAAAAAAAAAAAAAAAAAAAAAAAAAAAAAAAAAAAAAAAAAAA\
AAAAAAAAAAAAAAAAAAAAAAAAAAAAAAAAAAAAAAAAAAAAAAAAAAAAAAAAAAAAAAAAAAAAAAAAAAAAAAAAAAAA\
AAAAAAAAAAAAAAAAAAAAAAAAAAAAAAAAAAAAAAAAAAAAAAAAAAAAAAAAAAAAAAAAAAAAAAAAAAAAAAAAAAAA\
A -> ERR 11 LONG
 -> ERR 10 SYNTAX
ASK  A1 -> ERR 10 SYNTAX
TRADE A1 1 AAA1 0 0 -> ERR 12 RANGE
TRADE A1 1 AAA1 1000001 0 -> ERR 12 RANGE
ORIGIN CUST GROSS -> OK 1
OPEN A1 CUST -> OK 2
",
    ),
    (
        "the limit of sizes, and the end of the day",
        "ONE",
        "\
ORIGIN CUST GROSS -> OK 1
OPEN A1 CUST -> OK 2
TRADE A1 1 AAA1 1000000 0 -> OK 3
TRADE A1 2 AAA1 1000000 0 -> OK 4
TRADE A1 3 AAA1 1000000 0 -> OK 5
TRADE A1 4 AAA1 1000000 0 -> OK 6
TRADE A1 5 AAA1 1000000 0 -> OK 7
TRADE A1 6 AAA1 1000000 0 -> OK 8
TRADE A1 7 AAA1 1000000 0 -> OK 9
TRADE A1 8 AAA1 1000000 0 -> OK 10
TRADE A1 9 AAA1 1000000 0 -> OK 11
TRADE A1 10 AAA1 1000000 0 -> OK 12
TRADE A1 11 AAA1 1 0 -> ERR 13 31 LIMIT
BUST A1 10 -> OK 14
END -> OK 15
TRADE A1 12 AAA1 1 0 -> ERR 16 50 CLOSED
ASK A1 -> OK 17 2700000000 2700000000 0 0 -2700000000
END -> ERR 18 50 CLOSED
",
    ),
    (
        "drawing classes",
        "ONE",
        "\
ORIGIN CUST GROSS -> OK 1
OPEN A1 CUST -> OK 2
POST A1 BILL 3 -> OK 3
ASK A1 -> OK 4 0 0 28954 28954 28954
DRAW A1 BILL 4 -> ERR 5 33 OVER
DRAW A1 BILL 3 -> OK 6
DRAW A1 NOTE 1 -> ERR 7 26 NOCLASS
POST A1 CASH 600 -> OK 8
TRADE A1 1 AAA1 2 0 -> OK 9
DRAW A1 CASH 1 -> ERR 10 30 NOROOM
",
    ),
    (
        "roundings of a spread",
        "ODD",
        "\
ORIGIN CUST GROSS -> OK 1
OPEN A1 CUST -> OK 2
TRADE A1 1 AAA1 1 0 -> OK 3
TRADE A1 2 AAA2 -1 0 -> OK 4
ASK A1 -> OK 5 44 44 0 0 -44
",
    ),
    (
        "a tier spread with itself",
        "FLAT",
        "\
ORIGIN CUST GROSS -> OK 1
OPEN A1 CUST -> OK 2
TRADE A1 1 AAA1 2 0 -> OK 3
TRADE A1 2 AAA2 -2 0 -> OK 4
ASK A1 -> OK 5 140 140 0 0 -140
",
    ),
    (
        "a credit above the scan",
        "NEG",
        "\
ORIGIN CUST GROSS -> OK 1
OPEN A1 CUST -> OK 2
TRADE A1 1 AAA1 1 0 -> OK 3
TRADE A1 2 BBB1 -2 0 -> OK 4
ASK A1 -> OK 5 0 0 0 0 0
",
    ),
    (
        "no price risk, no credit",
        "WIN",
        "\
ORIGIN CUST GROSS -> OK 1
OPEN A1 CUST -> OK 2
TRADE A1 1 AAA1 1 0 -> OK 3
TRADE A1 2 BBB1 -2 0 -> OK 4
ASK A1 -> OK 5 150 150 0 0 -150
",
    ),
];

fn put(out: &mut Vec<u8>, line: &str) -> Result<(), AllocError> {
    out.extend_from_slice(line.as_bytes())?;
    out.push(b'\n')?;
    Ok(())
}

// Writes what is sent, and what is answered.
fn write_out(session: &str, lines: &mut Vec<u8>, replies: &mut Vec<u8>) -> Result<(), AllocError> {
    for text in session.lines() {
        match text.split_once(" -> ") {
            Some((line, reply)) => {
                put(lines, line)?;
                put(replies, reply)?;
            }
            None => put(replies, text)?,
        }
    }
    Ok(())
}

// Whether a script answers the lines of a session so.
fn check_lines(
    rt: &impl Abort,
    alloc: Global,
    plain: &mut Plain,
    shows: &str,
    session: &str,
) -> Result<(), Fail>
    requires { plain.old.day ≡ opening }
{
    let (mut lines, mut replies) = (Vec::new(alloc), Vec::new(alloc));
    write_out(session, &mut lines, &mut replies)?;
    let (ended, taken) = answered(alloc, plain, &lines);
    assert!(rt; ended.is_ok());
    assert_eq!(rt; first_difference(&taken, &replies), None, "{shows}");
    Ok(())
}

// The same from a book under its first set on.
fn check_session(
    rt: &impl Abort,
    alloc: Global,
    shows: &str,
    set: &str,
    session: &str,
) -> Result<(), Fail> {
    let Some(text) = text_of(set.as_bytes()) else {
        return Err(Fail::new("no such set"));
    };
    let mut plain = Plain::new(alloc, read_set(alloc, text.as_bytes())?)?;
    check_lines(rt, alloc, &mut plain, shows, session)
}

#[test]
fn worked_sessions_are_answered_in_memory(rt: HostRuntime) -> Result<(), Fail> {
    for (shows, set, session) in SESSIONS.iter() {
        check_session(&rt, rt.alloc(), shows, set, session)?;
    }
    Ok(())
}

// As many switches as a day has, and one more.
fn switches(alloc: Global) -> Result<String, AllocError> {
    let mut session = String::new(alloc);
    for n in 1..65 {
        write!(&mut session, "SWITCH ONE -> OK {n} {n} 0\n")?;
    }
    session.push_str("SWITCH ONE -> ERR 65 43 SETS\nORIGIN CUST GROSS -> OK 66\n")?;
    Ok(session)
}

#[test]
fn a_day_has_64_switches(rt: HostRuntime) -> Result<(), Fail> {
    let session = switches(rt.alloc())?;
    check_session(&rt, rt.alloc(), "64 switches", "ONE", &session)
}
