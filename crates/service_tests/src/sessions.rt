//! Sessions that share a book: replies worked out by hand, how often a desk was marked, and what an audit wants.

ghost use Rattle.std.specs.Prelude.{◌≡◌};

use mgn_ids::SessionNo;
use mgn_ledger::{AuditFault, DayImage, Image, Pass};
use mgn_params::ParamSet;
use mgn_service::{Gate, Service, Through};
use mgn_setfile::read_set;
use mgn_slots::{SlotNames, Slots};
use mgn_table::{SetTable, TableName};
use mgn_wire::{Line, LineReply, read_line, reply_text};
use std::alloc::Global;
use std::marker::Brand;
use std::process::Abort;
use std::sync::Wait;
use std::test::Fail;
use std::thread::Threads;
use worked_sets::{one, two};

// How many workers share the units of a switch.
const WORKERS: usize = 2;

/// A line, and the text that it is answered.
pub(crate) type Answered = (&'static str, &'static str);

/// Makes the calls of some lines, and compares each answer.
pub(crate) fn play<'a, R: Wait + Abort, T: Image, J: TableName + SlotNames, G: Gate>(
    rt: &R,
    alloc: Global,
    service: &Service<'a, T, J>,
    pass: &mut Pass<'a, T, J>,
    gate: &G,
    lines: &[Answered],
) {
    for (line, reply) in lines {
        call(rt, alloc, service, pass, gate, line, reply);
    }
}

fn call<'a, R: Wait + Abort, T: Image, J: TableName + SlotNames, G: Gate>(
    rt: &R,
    alloc: Global,
    service: &Service<'a, T, J>,
    pass: &mut Pass<'a, T, J>,
    gate: &G,
    line: &str,
    reply: &str,
) {
    let Ok(Line::Do(command)) = read_line(line.as_bytes()) else {
        panic!(rt; "{line} is no command")
    };
    let answer = service.exec(rt, pass, gate, &command);
    let mut text = Vec::new(alloc);
    assert!(rt; reply_text(&LineReply::Answered(answer), &mut text).is_ok());
    assert!(rt; text.as_slice() == reply.as_bytes(), "at {line}");
}

/// One account's orders, of which those that buy and those that sell do not cover one another.
pub(crate) const ORDERS: [Answered; 14] = [
    ("ORIGIN CUST GROSS", "OK 1\n"),
    ("OPEN A1 CUST", "OK 2\n"),
    ("POST A1 CASH 900", "OK 3\n"),
    ("HOLD A1 1 AAA1 3 0", "OK 4\n"),
    ("HOLD A1 2 AAA1 -3 0", "OK 5\n"),
    ("ASK A1", "OK 6 0 900 900 900 0\n"),
    ("RELEASE A1 2", "OK 7\n"),
    ("ASK A1", "OK 8 0 900 900 900 0\n"),
    ("HOLD A1 3 AAA1 -3 0", "OK 9\n"),
    ("HOLD A1 4 AAA1 3 0", "ERR 10 30 NOROOM\n"),
    ("RELEASE A1 3", "OK 11\n"),
    ("ASK A1", "OK 12 0 900 900 900 0\n"),
    ("END", "OK 13\n"),
    ("HOLD A1 5 AAA1 1 0", "ERR 14 50 CLOSED\n"),
];

// Two accounts, each a unit of its own, whose names a session keeps at one place when it keeps their units.
const TURNS: [Answered; 16] = [
    ("ORIGIN CUST GROSS", "OK 1\n"),
    ("OPEN A1 CUST", "OK 2\n"),
    ("OPEN BL CUST", "OK 3\n"),
    ("TRADE A1 1 AAA1 2 0", "OK 4\n"),
    ("TRADE BL 1 AAA1 1 0", "OK 5\n"),
    ("TRADE A1 2 AAA1 -1 0", "OK 6\n"),
    ("TRADE A1 3 AAA1 -1 0", "OK 7\n"),
    ("TRADE BL 2 AAA1 1 0", "OK 8\n"),
    ("BUST A1 3", "OK 9\n"),
    ("ASK A1", "OK 10 300 300 0 0 -300\n"),
    ("ASK BL", "OK 11 600 600 0 0 -600\n"),
    ("POST A1 CASH 5000", "OK 12\n"),
    ("POST BL CASH 5000", "OK 13\n"),
    ("MOVE 9 A1 BL AAA1 1", "OK 14\n"),
    ("ASK A1", "OK 15 0 0 5000 5000 5000\n"),
    ("ASK BL", "OK 16 900 900 5000 5000 4100\n"),
];

// An order that is filled in part before what is left of it is released, and its number held again. What the session
// keeps of the order is then no longer what the book holds.
const PARTS: [Answered; 12] = [
    ("ORIGIN CUST GROSS", "OK 1\n"),
    ("OPEN A1 CUST", "OK 2\n"),
    ("POST A1 CASH 900", "OK 3\n"),
    ("HOLD A1 1 AAA1 3 0", "OK 4\n"),
    ("FILL A1 1 1 2 0", "OK 5\n"),
    ("ASK A1", "OK 6 600 900 900 900 0\n"),
    ("RELEASE A1 1", "OK 7\n"),
    ("ASK A1", "OK 8 600 600 900 900 300\n"),
    ("HOLD A1 1 AAA1 1 0", "OK 9\n"),
    ("FILL A1 1 2 1 0", "OK 10\n"),
    ("RELEASE A1 1", "ERR 11 25 NOORDER\n"),
    ("ASK A1", "OK 12 900 900 900 900 0\n"),
];

// The desks of so many units are kept from call to call, also over a refused order, and nothing is worked out in the
// book.
fn keeps_desks<T: Image, J: TableName + SlotNames, R: Wait + Abort>(
    rt: &R,
    alloc: Global,
    slots: &Slots<T>,
    table: &SetTable,
    lines: &[Answered],
    units: u64,
) -> Result<(), Fail>
    requires slots { slots.now ≡ J.slots }
    requires table { table.now ≡ J.table }
{
    let service = fresh::<_, T, J>(rt, alloc, slots, table)?;
    let mut pass = service.pass(rt).ok_or("a pass")?;
    play(rt, alloc, &service, &mut pass, &Through, lines);
    assert!(rt; service.plain_count(rt) == 0 && service.mark_count() == units);
    let mut passes = Vec::new(alloc);
    passes.push(pass)?;
    assert!(rt; service.close(passes) == Ok(lines.len() as u64));
    Ok(())
}

#[test]
fn a_desk_is_kept(rt: HostRuntime) -> Result<(), Fail> {
    let slots = Slots::<DayImage>::new(rt.alloc(), 20)?;
    let table = SetTable::new(rt.alloc())?;
    keeps_desks::<_, Brand, _>(&rt, rt.alloc(), &slots, &table, &ORDERS, 1)
}

#[test]
fn accounts_take_turns(rt: HostRuntime) -> Result<(), Fail> {
    let slots = Slots::<DayImage>::new(rt.alloc(), 20)?;
    let table = SetTable::new(rt.alloc())?;
    keeps_desks::<_, Brand, _>(&rt, rt.alloc(), &slots, &table, &TURNS, 2)
}

#[test]
fn an_order_goes_in_parts(rt: HostRuntime) -> Result<(), Fail> {
    let slots = Slots::<DayImage>::new(rt.alloc(), 20)?;
    let table = SetTable::new(rt.alloc())?;
    keeps_desks::<_, Brand, _>(&rt, rt.alloc(), &slots, &table, &PARTS, 1)
}

/// A service before its first command.
pub(crate) fn fresh<'a, R: Wait, T: Image, J: TableName + SlotNames>(
    rt: &R,
    alloc: Global,
    slots: &'a Slots<T>,
    table: &'a SetTable,
) -> Result<Service<'a, T, J>, Fail>
    requires slots { slots.now ≡ J.slots }
    requires table { table.now ≡ J.table }
{
    let first = read_set(alloc, one().as_bytes())?;
    Ok(Service::new(rt, alloc, slots, table, first, WORKERS)?)
}

// The next passes of a service.
fn passes_of<'a, R: Wait, T: Image, J: TableName + SlotNames>(
    rt: &R,
    alloc: Global,
    service: &Service<'a, T, J>,
    count: u8,
) -> Result<Vec<Pass<'a, T, J>>, Fail> {
    let mut passes = Vec::new(alloc);
    for _ in 0..count {
        passes.push(service.pass(rt).ok_or("a pass")?)?;
    }
    Ok(passes)
}

fn sixteen<R: Wait + Abort, T: Image, J: TableName + SlotNames>(
    rt: &R,
    alloc: Global,
    slots: &Slots<T>,
    table: &SetTable,
) -> Result<(), Fail>
    requires slots { slots.now ≡ J.slots }
    requires table { table.now ≡ J.table }
{
    let service = fresh::<_, T, J>(rt, alloc, slots, table)?;
    let passes = passes_of(rt, alloc, &service, 16)?;
    assert!(rt; service.pass(rt).is_none());
    assert!(rt; service.close(passes) == Ok(0));
    Ok(())
}

#[test]
fn there_are_sixteen_passes(rt: HostRuntime) -> Result<(), Fail> {
    let slots = Slots::<DayImage>::new(rt.alloc(), 20)?;
    let table = SetTable::new(rt.alloc())?;
    sixteen::<_, _, Brand>(&rt, rt.alloc(), &slots, &table)
}

// The first passes of another service, whose audit misses them.
fn other_passes<'a, R: Wait + Abort, T: Image, J: TableName + SlotNames>(
    rt: &R,
    alloc: Global,
    slots: &'a Slots<T>,
    table: &'a SetTable,
    count: u8,
) -> Result<Vec<Pass<'a, T, J>>, Fail>
    requires slots { slots.now ≡ J.slots }
    requires table { table.now ≡ J.table }
{
    let other = fresh::<_, T, J>(rt, alloc, slots, table)?;
    let passes = passes_of(rt, alloc, &other, count)?;
    assert!(rt; other.close(Vec::new(alloc)) == Err(AuditFault::Passes));
    Ok(passes)
}

/// The first pass of another service.
pub(crate) fn another_pass<'a, R: Wait + Abort, T: Image, J: TableName + SlotNames>(
    rt: &R,
    alloc: Global,
    slots: &'a Slots<T>,
    table: &'a SetTable,
) -> Result<Pass<'a, T, J>, Fail>
    requires slots { slots.now ≡ J.slots }
    requires table { table.now ≡ J.table }
{
    let passes = other_passes(rt, alloc, slots, table, 1)?;
    Ok(passes.into_iter().next().ok_or("a pass")?)
}

// What a session calls before an audit.
const CALLED: [Answered; 1] = [("ORIGIN CUST GROSS", "OK 1\n")];

#[test]
fn an_audit_tells_how_many_calls_there_were(rt: HostRuntime) -> Result<(), Fail> {
    let slots = Slots::<DayImage>::new(rt.alloc(), 20)?;
    let table = SetTable::new(rt.alloc())?;
    keeps_desks::<_, Brand, _>(&rt, rt.alloc(), &slots, &table, &CALLED, 0)
}

fn missing<R: Wait + Abort, T: Image, J: TableName + SlotNames>(
    rt: &R,
    alloc: Global,
    slots: &Slots<T>,
    table: &SetTable,
) -> Result<(), Fail>
    requires slots { slots.now ≡ J.slots }
    requires table { table.now ≡ J.table }
{
    let service = fresh::<_, T, J>(rt, alloc, slots, table)?;
    let mut pass = service.pass(rt).ok_or("a pass")?;
    play(rt, alloc, &service, &mut pass, &Through, &CALLED);
    assert!(rt; service.close(Vec::new(alloc)) == Err(AuditFault::Passes));
    Ok(())
}

#[test]
fn an_audit_misses_a_pass(rt: HostRuntime) -> Result<(), Fail> {
    let slots = Slots::<DayImage>::new(rt.alloc(), 20)?;
    let table = SetTable::new(rt.alloc())?;
    missing::<_, _, Brand>(&rt, rt.alloc(), &slots, &table)
}

fn unmatched<R: Wait + Abort, T: Image, J: TableName + SlotNames>(
    rt: &R,
    alloc: Global,
    slots: &Slots<T>,
    table: &SetTable,
) -> Result<(), Fail>
    requires slots { slots.now ≡ J.slots }
    requires table { table.now ≡ J.table }
{
    let service = fresh::<_, T, J>(rt, alloc, slots, table)?;
    let mut pass = service.pass(rt).ok_or("a pass")?;
    play(rt, alloc, &service, &mut pass, &Through, &CALLED);
    let mut passes = Vec::new(alloc);
    passes.push(another_pass(rt, alloc, slots, table)?)?;
    let session = SessionNo::new(1);
    assert!(rt; service.close(passes) == Err(AuditFault::Unmatched(session)));
    Ok(())
}

#[test]
fn an_audit_wants_its_own_passes(rt: HostRuntime) -> Result<(), Fail> {
    let slots = Slots::<DayImage>::new(rt.alloc(), 20)?;
    let table = SetTable::new(rt.alloc())?;
    unmatched::<_, _, Brand>(&rt, rt.alloc(), &slots, &table)
}

// A call of each of three sessions.
const OPENED: [Answered; 3] = [
    ("ORIGIN CUST GROSS", "OK 1\n"),
    ("OPEN A1 CUST", "OK 2\n"),
    ("OPEN A2 CUST", "OK 3\n"),
];

// The audit is handed the first session's own pass, and before it the passes that another service made for the third
// and for the second.
fn two_unmatched<R: Wait + Abort, T: Image, J: TableName + SlotNames>(
    rt: &R,
    alloc: Global,
    slots: &Slots<T>,
    table: &SetTable,
) -> Result<(), Fail>
    requires slots { slots.now ≡ J.slots }
    requires table { table.now ≡ J.table }
{
    let service = fresh::<_, T, J>(rt, alloc, slots, table)?;
    let mut own = passes_of(rt, alloc, &service, 3)?;
    for (pass, call) in own.iter_mut().zip(&OPENED) {
        play(rt, alloc, &service, pass, &Through, &[*call]);
    }
    let mut others = other_passes(rt, alloc, slots, table, 3)?;
    let mut passes = Vec::new(alloc);
    passes.push(others.pop().ok_or("a third pass")?)?;
    passes.push(others.pop().ok_or("a second pass")?)?;
    passes.push(own.into_iter().next().ok_or("a first pass")?)?;
    let session = SessionNo::new(2);
    assert!(rt; service.close(passes) == Err(AuditFault::Unmatched(session)));
    Ok(())
}

#[test]
fn an_audit_tells_the_lowest_session_that_it_finds_wrong(rt: HostRuntime) -> Result<(), Fail> {
    let slots = Slots::<DayImage>::new(rt.alloc(), 20)?;
    let table = SetTable::new(rt.alloc())?;
    two_unmatched::<_, _, Brand>(&rt, rt.alloc(), &slots, &table)
}

/// Switches to the set of a text, and compares the answer.
pub(crate) fn switch<'a, R: Threads + Wait + Abort + Sync, T: Image, J: TableName + SlotNames>(
    rt: &R,
    alloc: Global,
    service: &Service<'a, T, J>,
    pass: &mut Pass<'a, T, J>,
    file: &str,
    reply: &str,
) -> Result<(), Fail> {
    let set = read_set(alloc, file.as_bytes())?;
    let answer = service.switch(rt, pass, &Through, set);
    let mut text = Vec::new(alloc);
    assert!(rt; reply_text(&LineReply::Answered(answer), &mut text).is_ok());
    assert!(rt; text.as_slice() == reply.as_bytes());
    Ok(())
}

// Of the two lots each requires 300, and 600 under the other set.
const BEFORE: [Answered; 4] = [
    ("ORIGIN CUST GROSS", "OK 1\n"),
    ("OPEN A1 CUST", "OK 2\n"),
    ("POST A1 CASH 1000", "OK 3\n"),
    ("TRADE A1 1 AAA1 2 0", "OK 4\n"),
];

fn two_sets<R: Threads + Wait + Abort + Sync, T: Image, J: TableName + SlotNames>(
    rt: &R,
    alloc: Global,
    slots: &Slots<T>,
    table: &SetTable,
) -> Result<(), Fail>
    requires slots { slots.now ≡ J.slots }
    requires table { table.now ≡ J.table }
{
    let service = fresh::<_, T, J>(rt, alloc, slots, table)?;
    let mut pass = service.pass(rt).ok_or("a pass")?;
    play(rt, alloc, &service, &mut pass, &Through, &BEFORE);
    switch(rt, alloc, &service, &mut pass, two(), "OK 5 1 1\n")?;
    let under_two = [("ASK A1", "OK 6 1200 1200 1000 1000 -200\n")];
    play(rt, alloc, &service, &mut pass, &Through, &under_two);
    switch(rt, alloc, &service, &mut pass, two(), "OK 7 2 1\n")?;
    switch(rt, alloc, &service, &mut pass, one(), "OK 8 3 0\n")?;
    let after = [
        ("ASK A1", "OK 9 600 600 1000 1000 400\n"),
        ("TRADE A1 2 AAA1 -1 0", "OK 10\n"),
    ];
    play(rt, alloc, &service, &mut pass, &Through, &after);
    assert!(rt; service.late_count(rt) == 0);
    let mut passes = Vec::new(alloc);
    passes.push(pass)?;
    assert!(rt; service.close(passes) == Ok(10));
    Ok(())
}

#[test]
fn sets_come_into_force(rt: HostRuntime) -> Result<(), Fail> {
    let slots = Slots::<DayImage>::new(rt.alloc(), 20)?;
    let table = SetTable::new(rt.alloc())?;
    two_sets::<_, _, Brand>(&rt, rt.alloc(), &slots, &table)
}

// One of two lots goes to another account, which is a unit of its own. Trades of both then find their desks in step.
const MOVED: [Answered; 11] = [
    ("ORIGIN CUST GROSS", "OK 1\n"),
    ("OPEN A1 CUST", "OK 2\n"),
    ("POST A1 CASH 1000", "OK 3\n"),
    ("TRADE A1 1 AAA1 2 0", "OK 4\n"),
    ("ASK A1", "OK 5 600 600 1000 1000 400\n"),
    ("OPEN A2 CUST", "OK 6\n"),
    ("POST A2 CASH 300", "OK 7\n"),
    ("MOVE 2 A1 A2 AAA1 1", "OK 8\n"),
    ("TOTAL CUST", "OK 9 600 1300 0 2\n"),
    ("TRADE A1 3 AAA1 -1 0", "OK 10\n"),
    ("TRADE A2 4 AAA1 -1 0", "OK 11\n"),
];

#[test]
fn a_lot_moves_between_units(rt: HostRuntime) -> Result<(), Fail> {
    let slots = Slots::<DayImage>::new(rt.alloc(), 20)?;
    let table = SetTable::new(rt.alloc())?;
    keeps_desks::<_, Brand, _>(&rt, rt.alloc(), &slots, &table, &MOVED, 2)
}

// A lot may not go to an account that has a cent too little. Trades of both then find their desks as they were before
// both moved, and the lot goes under the same number once there is room.
const NOT_MOVED: [Answered; 15] = [
    ("ORIGIN CUST GROSS", "OK 1\n"),
    ("OPEN A1 CUST", "OK 2\n"),
    ("OPEN A2 CUST", "OK 3\n"),
    ("TRADE A1 1 AAA1 1 0", "OK 4\n"),
    ("POST A2 CASH 299", "OK 5\n"),
    ("MOVE 9 A1 A2 AAA1 1", "ERR 6 30 NOROOM\n"),
    ("TRADE A1 2 AAA1 1 0", "OK 7\n"),
    ("TRADE A2 1 AAA1 1 0", "OK 8\n"),
    ("ASK A1", "OK 9 600 600 0 0 -600\n"),
    ("ASK A2", "OK 10 300 300 299 299 -1\n"),
    ("POST A1 CASH 300", "OK 11\n"),
    ("POST A2 CASH 301", "OK 12\n"),
    ("MOVE 9 A1 A2 AAA1 1", "OK 13\n"),
    ("ASK A1", "OK 14 300 300 300 300 0\n"),
    ("ASK A2", "OK 15 600 600 600 600 0\n"),
];

#[test]
fn a_refused_transfer_leaves_both_desks(rt: HostRuntime) -> Result<(), Fail> {
    let slots = Slots::<DayImage>::new(rt.alloc(), 20)?;
    let table = SetTable::new(rt.alloc())?;
    keeps_desks::<_, Brand, _>(&rt, rt.alloc(), &slots, &table, &NOT_MOVED, 2)
}
