//! A book that is asked to commit by desks: each of its decisions but those of a full history and of memory.

ghost use Rattle.std.specs.Prelude.{◌≡◌, All, IfOk};
ghost use Rattle.mgn_span.specs.Positions.{IsNet};
ghost use Rattle.mgn_nets.specs.Portfolios.{AreNets};
ghost use Rattle.mgn_params.specs.Shelves.{set_at};
ghost use Rattle.mgn_desk.specs.Desks.{IsMarkedBy};
ghost use Rattle.mgn_pricing.specs.Given.{IsRight};
ghost use Rattle.mgn_book.specs.BookViews.{Stands};

use mgn_book::{Book, Decision, Outcome};
use mgn_desk::Desk;
use mgn_ids::SessionNo;
use mgn_machine::{Answer, Command, Reply};
use mgn_nets::{Nets, Portfolios};
use mgn_num::Quantity;
use mgn_params::{ParamSet, SetList, Shelf, Version, Work};
use mgn_pricing::is_of;
use mgn_setfile::read_set;
use mgn_unit::PreparedUnits;
use mgn_wire::{Line, LineReply, read_line, reply_text};
use std::alloc::{AllocError, Global};
use std::process::Abort;
use std::test::Fail;
use worked_sets::{one, two};

/// A line of session 1, how many of the first contract the desk of unit 0 shows by the lots and with the held buys,
/// where one is given, and what this comes to.
type Commit = (&'static str, Option<(i8, i8)>, &'static str);

// How many contracts the sets have.
const CONTRACTS: usize = 4;

// A trade needs the desk of its unit, with the nets that the unit has after it; what changes no net needs none.
const TRADED: [Commit; 7] = [
    ("ORIGIN CUST GROSS", None, "OK 1\n"),
    ("OPEN A1 CUST", None, "OK 2\n"),
    ("POST A1 CASH 1000", None, "OK 3\n"),
    ("TRADE A1 1 AAA1 2 0", None, "apart\n"),
    ("TRADE A1 1 AAA1 2 0", Some((0, 0)), "apart\n"),
    ("TRADE A1 1 AAA1 2 0", Some((2, 2)), "OK 4\n"),
    ("ASK A1", None, "OK 5 600 600 1000 1000 400\n"),
];

const OPENED: [Commit; 3] = [
    ("ORIGIN CUST GROSS", None, "OK 1\n"),
    ("OPEN A1 CUST", None, "OK 2\n"),
    ("POST A1 CASH 600", None, "OK 3\n"),
];

// What is held, by the lots and with the buys, once two contracts are.
const HELD: (i8, i8) = (0, 2);

// After the switch the two contracts would require 1200.
const HELD_LATE: [Commit; 2] = [
    ("HOLD A1 1 AAA1 2 0", Some(HELD), "ERR 5 30 NOROOM\n"),
    ("ASK A1", None, "OK 6 0 0 600 600 600\n"),
];

// A net of so many contracts.
fn net(contracts: i8) -> Quantity
    ensures { IsNet result }
{
    Quantity::new(i64::from(contracts))
}

// So many of the first contract alone.
fn nets_of(rt: &impl Abort, alloc: Global, set: &ParamSet, count: i8) -> Result<Nets, AllocError>
    ensures { IfOk result (AreNets set.now) }
{
    assert_eq!(rt; set.contract_count(), CONTRACTS);
    Nets::of(alloc, &[net(count), net(0), net(0), net(0)])
}

// The desk of unit 0, marked so.
fn desk_of(
    rt: &impl Abort,
    alloc: Global,
    version: Version,
    set: &ParamSet,
    shown: (i8, i8),
) -> Desk
    ensures { IsMarkedBy set.now result.marked }
{
    let (Ok(lots), Ok(buys)) = (
        nets_of(rt, alloc, set, shown.0),
        nets_of(rt, alloc, set, shown.1),
    ) else {
        panic!(rt; "no memory for nets");
    };
    let nets = Portfolios {
        lots: &lots,
        buys: &buys,
        sales: &lots,
        all: &buys,
    };
    let mut desk = Desk::empty(0);
    let marked = desk.mark(alloc, version, set, &nets);
    assert!(rt; marked.is_ok());
    desk
}

// The command of a line.
fn command(rt: &impl Abort, line: &str) -> Command {
    match read_line(line.as_bytes()) {
        Ok(Line::Do(command)) => command,
        Ok(Line::Switch(_)) | Err(_) => panic!(rt; "{line} is no command"),
    }
}

// The text of a decision, by the place and the reply of one that is done.
fn text_of(alloc: Global, decision: Decision) -> Result<Vec<u8>, Fail> {
    let word = match decision {
        Decision::Done(place, reply) => return reply_of(alloc, place, reply),
        Decision::Stale(_) => "stale\n",
        Decision::Apart => "apart\n",
        Decision::Full => "full\n",
        Decision::Memory => "memory\n",
    };
    let mut out = Vec::new(alloc);
    out.extend_from_slice(word.as_bytes())?;
    Ok(out)
}

fn reply_of(alloc: Global, place: u64, reply: Reply) -> Result<Vec<u8>, Fail> {
    let place = Some(place);
    let mut out = Vec::new(alloc);
    reply_text(&LineReply::Answered(Answer { place, reply }), &mut out)?;
    Ok(out)
}

fn commit(
    alloc: Global,
    shelf: &SetList,
    book: &mut Book,
    command: &Command,
    desks: &[&Desk],
) -> Decision
    requires stands { Stands shelf.now book.old }
    requires right { let version = book.old.book.state.version in
        All (λ d. IsRight (set_at shelf.now version) version d.now.marked) desks.now }
    ensures { Stands shelf.now book.new }
{
    let session = SessionNo::new(1);
    let number = book.calls(session) + 1;
    let mut work = Work::new();
    book.commit(alloc, session, number, command, shelf, desks, &mut work)
}

// The same by one desk.
fn commit_by(
    alloc: Global,
    shelf: &SetList,
    book: &mut Book,
    command: &Command,
    desk: Desk,
) -> Decision
    requires stands { Stands shelf.now book.old }
    requires right { let version = book.old.book.state.version in
        IsRight (set_at shelf.now version) version desk.marked }
    ensures { Stands shelf.now book.new }
{
    commit(alloc, shelf, book, command, &[&desk])
}

// By a desk that is marked now, or by none.
fn commit_now(
    rt: &impl Abort,
    alloc: Global,
    shelf: &SetList,
    book: &mut Book,
    command: &Command,
    shown: Option<(i8, i8)>,
) -> Decision
    requires { Stands shelf.now book.old }
    ensures { Stands shelf.now book.new }
{
    let Some(shown) = shown else {
        return commit(alloc, shelf, book, command, &[]);
    };
    let version = book.version();
    let Some(set) = shelf.get(version) else {
        panic!(rt; "no set");
    };
    commit_by(
        alloc,
        shelf,
        book,
        command,
        desk_of(rt, alloc, version, set, shown),
    )
}

// By a desk that was marked before the set in force.
fn commit_late(
    rt: &impl Abort,
    alloc: Global,
    shelf: &SetList,
    book: &mut Book,
    command: &Command,
    desk: Desk,
) -> Decision
    requires { Stands shelf.now book.old }
    ensures { Stands shelf.now book.new }
{
    assert!(rt; !is_of(&desk, book.version()));
    commit_by(alloc, shelf, book, command, desk)
}

// Has the book commit one line, and looks at what this comes to.
fn check_commit(
    rt: &impl Abort,
    alloc: Global,
    shelf: &SetList,
    book: &mut Book,
    expected: &Commit,
) -> Result<(), Fail>
    requires { Stands shelf.now book.old }
    ensures { Stands shelf.now book.new }
{
    let (line, shown, reply) = expected;
    let decision = commit_now(rt, alloc, shelf, book, &command(rt, line), *shown);
    let came = text_of(alloc, decision)?;
    assert!(rt; came.as_slice() == reply.as_bytes(), "at {line}, {reply}");
    Ok(())
}

// The same of some lines, one after the other.
fn check_commits(
    rt: &impl Abort,
    alloc: Global,
    shelf: &SetList,
    book: &mut Book,
    commits: &[Commit],
) -> Result<(), Fail>
    requires { Stands shelf.now book.old }
    ensures { Stands shelf.now book.new }
{
    for expected in commits {
        check_commit(rt, alloc, shelf, book, expected)?;
    }
    Ok(())
}

#[test]
fn a_trade_is_committed_by_its_desk(rt: HostRuntime) -> Result<(), Fail> {
    let set = read_set(rt.alloc(), one().as_bytes())?;
    let shelf = SetList::new(rt.alloc(), set)?;
    let mut book = Book::new(rt.alloc(), &shelf);
    check_commits(&rt, rt.alloc(), &shelf, &mut book, &TRADED)
}

// Brings a set into force.
fn switch(rt: &impl Abort, alloc: Global, shelf: &mut SetList, book: &mut Book, set: ParamSet)
    requires { Stands shelf.old book.old }
    ensures { Stands shelf.new book.new }
{
    let session = SessionNo::new(2);
    let number = book.calls(session) + 1;
    let mut prepared = PreparedUnits::none(alloc);
    let mut work = Work::new();
    let outcome = book.commit_switch(alloc, session, number, set, shelf, &mut prepared, &mut work);
    assert!(rt; matches!(outcome, Outcome::Done(4, _)));
}

// A desk of unit 0 as a hold would leave it, under the set in force.
fn held_desk(rt: &impl Abort, alloc: Global, shelf: &SetList, book: &Book) -> Desk {
    let version = book.version();
    let Some(set) = shelf.get(version) else {
        panic!(rt; "no set");
    };
    desk_of(rt, alloc, version, set, HELD)
}

// A hold whose desk was marked before the set in force changes nothing.
fn check_stale(rt: &impl Abort, alloc: Global, shelf: &SetList, book: &mut Book, desk: Desk)
    requires { Stands shelf.now book.old }
    ensures { Stands shelf.now book.new }
{
    let late = commit_late(
        rt,
        alloc,
        shelf,
        book,
        &command(rt, "HOLD A1 1 AAA1 2 0"),
        desk,
    );
    assert!(rt; matches!(late, Decision::Stale(version) if version.number() == 1));
}

// A hold whose desk was marked before a switch is not done, nor anything else; by a desk of the new set it is refused.
fn check_late(
    rt: &impl Abort,
    alloc: Global,
    shelf: &mut SetList,
    book: &mut Book,
    second: ParamSet,
) -> Result<(), Fail>
    requires { Stands shelf.old book.old }
{
    check_commits(rt, alloc, shelf, book, &OPENED)?;
    let desk = held_desk(rt, alloc, shelf, book);
    switch(rt, alloc, shelf, book, second);
    check_stale(rt, alloc, shelf, book, desk);
    check_commits(rt, alloc, shelf, book, &HELD_LATE)
}

#[test]
fn a_desk_of_an_older_set_is_stale(rt: HostRuntime) -> Result<(), Fail> {
    let first = read_set(rt.alloc(), one().as_bytes())?;
    let second = read_set(rt.alloc(), two().as_bytes())?;
    let mut shelf = SetList::new(rt.alloc(), first)?;
    let mut book = Book::new(rt.alloc(), &shelf);
    check_late(&rt, rt.alloc(), &mut shelf, &mut book, second)
}
