//! A history that is full: as many entries as it may have, the calls after them, and the audit.

ghost use Rattle.std.specs.Prelude.{◌≡◌};

use mgn_ledger::{DayImage, Image, Pass};
use mgn_machine::{Answer, Command, Refusal, Reply};
use mgn_service::{Service, Through};
use mgn_setfile::read_set;
use mgn_slots::{SlotNames, Slots};
use mgn_table::{SetTable, TableName};
use mgn_wire::{Line, read_line};
use std::alloc::Global;
use std::marker::Brand;
use std::process::Abort;
use std::sync::Wait;
use std::test::Fail;
use worked_sets::one;

// The most entries that a history has.
const MOST: u64 = 1_000_000;

// Asks for an account that there is not until the history is full. Each question is refused, and has the next place.
fn fill<'a, R: Wait + Abort, T: Image, J: TableName + SlotNames>(
    rt: &R,
    service: &Service<'a, T, J>,
    pass: &mut Pass<'a, T, J>,
    question: &Command,
) {
    for place in 1..=MOST {
        let answer = service.exec(rt, pass, &Through, question);
        assert!(rt; answer.place == Some(place));
        assert!(rt; matches!(answer.reply, Reply::Refused(Refusal::NoAccount)));
    }
}

// Whether an answer says that there is room for no more entries.
fn is_full(answer: &Answer) -> bool {
    answer.place.is_none() && matches!(answer.reply, Reply::Refused(Refusal::Full))
}

fn full<R: Wait + Abort, T: Image, J: TableName + SlotNames>(
    rt: &R,
    alloc: Global,
    slots: &Slots<T>,
    table: &SetTable,
) -> Result<(), Fail>
    requires slots { slots.now ≡ J.slots }
    requires table { table.now ≡ J.table }
{
    let first = read_set(alloc, one().as_bytes())?;
    let service = Service::<T, J>::new(rt, alloc, slots, table, first, 1)?;
    let mut pass = service.pass(rt).ok_or("a pass")?;
    let Ok(Line::Do(question)) = read_line("ASK A1".as_bytes()) else {
        return Err("a question".into());
    };
    fill(rt, &service, &mut pass, &question);
    assert!(rt; is_full(&service.exec(rt, &mut pass, &Through, &question)));
    let next = read_set(alloc, one().as_bytes())?;
    assert!(rt; is_full(&service.switch_alone(rt, &mut pass, &Through, next)));
    let mut passes = Vec::new(alloc);
    passes.push(pass)?;
    assert!(rt; service.close(passes) == Ok(MOST));
    Ok(())
}

#[test]
fn a_full_history_takes_no_call(rt: HostRuntime) -> Result<(), Fail> {
    let slots = Slots::<DayImage>::new(rt.alloc(), 1_000_000)?;
    let table = SetTable::new(rt.alloc())?;
    full::<_, _, Brand>(&rt, rt.alloc(), &slots, &table)
}
