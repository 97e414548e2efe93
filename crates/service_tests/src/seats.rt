//! Seats: lines go in, the replies come out, and the service counts what its calls worked out.

ghost use Rattle.std.specs.Prelude.{◌≡◌};

use crate::sessions::{Answered, ORDERS, fresh};
use mgn_ledger::{DayImage, Image};
use mgn_seat::{Alone, Seat};
use mgn_service::Through;
use mgn_session::{Conversation, Counted, Exec, NoFiles, SessionFault, run_lines};
use mgn_slots::{SlotNames, Slots};
use mgn_table::{SetTable, TableName};
use std::alloc::{AllocError, Global};
use std::marker::Brand;
use std::process::Abort;
use std::sync::Wait;
use std::test::Fail;

// The lines as a text, and the replies.
fn texts(alloc: Global, lines: &[Answered]) -> Result<(Vec<u8>, Vec<u8>), AllocError> {
    let mut asked = Vec::new(alloc);
    let mut told = Vec::new(alloc);
    for (line, reply) in lines {
        asked.extend_from_slice(line.as_bytes())?;
        asked.push(b'\n')?;
        told.extend_from_slice(reply.as_bytes())?;
    }
    Ok((asked, told))
}

// How many lines were answered, and what was written.
fn answered<E: Exec>(
    alloc: Global,
    exec: &mut E,
    asked: &[u8],
) -> (Result<u64, SessionFault>, Vec<u8>) {
    let reader = Counted::new(asked);
    let writer = Counted::new(Vec::new(alloc));
    let mut talk = Conversation::new(alloc, reader, writer);
    let ended = run_lines(alloc, &mut talk, exec, &mut NoFiles);
    let (_, writer) = talk.into_parts();
    (ended, writer.into_inner())
}

// A seat answers the lines. The one unit's desk is marked once, and nothing is worked out in the book.
fn seated<R: Wait + Abort, T: Image, J: TableName + SlotNames>(
    rt: &R,
    alloc: Global,
    slots: &Slots<T>,
    table: &SetTable,
    lines: &[Answered],
) -> Result<(), Fail>
    requires slots { slots.now ≡ J.slots }
    requires table { table.now ≡ J.table }
{
    let service = fresh::<_, T, J>(rt, alloc, slots, table)?;
    let pass = service.pass(rt).ok_or("a pass")?;
    let mut seat = Seat::new(rt, &service, &Through, pass, &Alone);
    let (asked, told) = texts(alloc, lines)?;
    let (ended, written) = answered(alloc, &mut seat, &asked);
    let count = lines.len() as u64;
    assert!(rt; ended == Ok(count) && written.as_slice() == told.as_slice());
    let mut passes = Vec::new(alloc);
    passes.push(seat.into_pass())?;
    assert!(rt; service.plain_count(rt) == 0);
    assert!(rt; service.late_count(rt) == 0);
    assert!(rt; service.mark_count() == 1);
    assert!(rt; service.close(passes) == Ok(count));
    Ok(())
}

#[test]
fn orders_of_both_sides_are_answered_by_one_desk(rt: HostRuntime) -> Result<(), Fail> {
    let slots = Slots::<DayImage>::new(rt.alloc(), 20)?;
    let table = SetTable::new(rt.alloc())?;
    seated::<_, _, Brand>(&rt, rt.alloc(), &slots, &table, &ORDERS)
}

// There is no room for a second order. The first then goes by the desk that was taken back.
const WITHOUT_ROOM: [Answered; 8] = [
    ("ORIGIN CUST GROSS", "OK 1\n"),
    ("OPEN A1 CUST", "OK 2\n"),
    ("POST A1 CASH 900", "OK 3\n"),
    ("HOLD A1 7 AAA1 3 0", "OK 4\n"),
    ("HOLD A1 8 AAA1 1 0", "ERR 5 30 NOROOM\n"),
    ("ASK A1", "OK 6 0 900 900 900 0\n"),
    ("RELEASE A1 7", "OK 7\n"),
    ("ASK A1", "OK 8 0 0 900 900 900\n"),
];

#[test]
fn an_order_is_released_after_a_refused_one(rt: HostRuntime) -> Result<(), Fail> {
    let slots = Slots::<DayImage>::new(rt.alloc(), 20)?;
    let table = SetTable::new(rt.alloc())?;
    seated::<_, _, Brand>(&rt, rt.alloc(), &slots, &table, &WITHOUT_ROOM)
}
