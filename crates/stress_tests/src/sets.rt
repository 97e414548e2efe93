//! A day with as many sets as there can be, by a seat; the set after them, and what is asked then.

ghost use Rattle.std.specs.Prelude.{◌≡◌};

use mgn_ledger::{DayImage, Image};
use mgn_machine::Answer;
use mgn_seat::{Alone, Seat};
use mgn_service::{Service, Through};
use mgn_session::Exec;
use mgn_setfile::read_set;
use mgn_slots::{SlotNames, Slots};
use mgn_table::{SetTable, TableName};
use mgn_wire::{Line, LineReply, read_line, reply_text};
use std::alloc::Global;
use std::marker::Brand;
use std::process::Abort;
use std::sync::Wait;
use std::test::Fail;
use worked_sets::{one, two};

// A line, and how the text begins that it is answered.
type Answered = (&'static str, &'static str);

// How many sets come into force at most after the first.
const MOST: u8 = 64;

// The two lots require 600 under the first set and each that is its like, and 1,200 under the others.
const BEFORE: [Answered; 4] = [
    ("ORIGIN CUST GROSS", "OK 1\n"),
    ("OPEN A1 CUST", "OK 2\n"),
    ("POST A1 CASH 1000", "OK 3\n"),
    ("TRADE A1 1 AAA1 2 0", "OK 4\n"),
];

const AFTER: [Answered; 4] = [
    ("ASK A1", "OK 70 600 600 1000 1000 400\n"),
    ("TRADE A1 2 AAA1 -1 0", "OK 71\n"),
    ("ASK A1", "OK 72 300 300 1000 1000 700\n"),
    ("STMT A1", "OK 73 7\nS A1 CUST GROSS ONE 64\n"),
];

// Looks at how the text of an answer begins.
fn check(rt: &impl Abort, alloc: Global, answer: Answer, reply: &str) {
    let mut text = Vec::new(alloc);
    assert!(rt; reply_text(&LineReply::Answered(answer), &mut text).is_ok());
    assert!(rt;
        text.as_slice().starts_with(reply.as_bytes()),
        "for {reply}"
    );
}

// Makes the calls of some lines.
fn play<R: Abort, E: Exec>(rt: &R, alloc: Global, seat: &mut E, lines: &[(&str, &str)]) {
    for (line, reply) in lines {
        let Ok(Line::Do(command)) = read_line(line.as_bytes()) else {
            panic!(rt; "{line} is no command")
        };
        check(rt, alloc, seat.exec(&command), reply);
    }
}

fn switch<R: Abort, E: Exec>(
    rt: &R,
    alloc: Global,
    seat: &mut E,
    file: &str,
    reply: &str,
) -> Result<(), Fail> {
    let set = read_set(alloc, file.as_bytes())?;
    check(rt, alloc, seat.switch(set), reply);
    Ok(())
}

// Switches as often as sets can come into force, to and fro. Each first one of two leaves the unit on call.
fn switch_to_the_end<R: Abort, E: Exec>(rt: &R, alloc: Global, seat: &mut E) -> Result<(), Fail> {
    for version in 1..=MOST {
        let (file, on_call) = if version % 2 == 1 {
            (two(), 1u8)
        } else {
            (one(), 0)
        };
        let place = u16::from(version) + 4;
        let reply = format!(in alloc; "OK {place} {version} {on_call}\n")?;
        switch(rt, alloc, seat, file, &reply)?;
    }
    Ok(())
}

fn fill<R: Wait + Abort, T: Image, J: TableName + SlotNames>(
    rt: &R,
    alloc: Global,
    slots: &Slots<T>,
    table: &SetTable,
) -> Result<(), Fail>
    requires slots { slots.now ≡ J.slots }
    requires table { table.now ≡ J.table }
{
    let first = read_set(alloc, one().as_bytes())?;
    let service = Service::<T, J>::new(rt, alloc, slots, table, first, 1)?;
    let pass = service.pass(rt).ok_or("a pass")?;
    let mut seat = Seat::new(rt, &service, &Through, pass, &Alone);
    play(rt, alloc, &mut seat, &BEFORE);
    switch_to_the_end(rt, alloc, &mut seat)?;
    switch(rt, alloc, &mut seat, two(), "ERR 69 43 SETS\n")?;
    play(rt, alloc, &mut seat, &AFTER);
    switch(rt, alloc, &mut seat, one(), "ERR 74 43 SETS\n")?;
    let mut passes = Vec::new(alloc);
    passes.push(seat.into_pass())?;
    assert!(rt; service.close(passes) == Ok(74));
    Ok(())
}

#[test]
fn the_65th_set_is_refused(rt: HostRuntime) -> Result<(), Fail> {
    let slots = Slots::<DayImage>::new(rt.alloc(), 80)?;
    let table = SetTable::new(rt.alloc())?;
    fill::<_, _, Brand>(&rt, rt.alloc(), &slots, &table)
}
