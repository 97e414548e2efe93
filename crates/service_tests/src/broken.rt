//! Services that find their history unfit for a call: it is answered `BROKEN`, and so is each after it.

ghost use Rattle.std.specs.Prelude.{◌≡◌};

use crate::sessions::{another_pass, fresh, play, switch};
use mgn_ids::SessionNo;
use mgn_ledger::{AuditFault, DayImage, Image};
use mgn_service::Through;
use mgn_slots::{SlotNames, Slots};
use mgn_table::{SetTable, TableName};
use std::alloc::Global;
use std::marker::Brand;
use std::process::Abort;
use std::sync::Wait;
use std::test::Fail;
use std::thread::Threads;
use worked_sets::two;

const BROKEN: &str = "ERR 92 BROKEN\n";

// A pass of another service asks a question, where the history has a call of its session already.
fn asked_by_another<R: Threads + Wait + Abort + Sync, T: Image, J: TableName + SlotNames>(
    rt: &R,
    alloc: Global,
    slots: &Slots<T>,
    table: &SetTable,
) -> Result<(), Fail>
    requires slots { slots.now ≡ J.slots }
    requires table { table.now ≡ J.table }
{
    let service = fresh::<_, T, J>(rt, alloc, slots, table)?;
    let mut pass = service.pass(rt).ok_or("a pass")?;
    play(
        rt,
        alloc,
        &service,
        &mut pass,
        &Through,
        &[("ORIGIN CUST GROSS", "OK 1\n")],
    );
    let mut other = another_pass(rt, alloc, slots, table)?;
    play(
        rt,
        alloc,
        &service,
        &mut other,
        &Through,
        &[("TOTAL CUST", BROKEN)],
    );
    play(
        rt,
        alloc,
        &service,
        &mut pass,
        &Through,
        &[("TOTAL CUST", BROKEN)],
    );
    switch(rt, alloc, &service, &mut pass, two(), BROKEN)?;
    assert!(rt; other.calls() == 0 && pass.calls() == 1);
    let mut passes = Vec::new(alloc);
    passes.push(pass)?;
    let session = SessionNo::new(1);
    assert!(rt; service.close(passes) == Err(AuditFault::Unmatched(session)));
    Ok(())
}

#[test]
fn another_pass_breaks_a_service(rt: HostRuntime) -> Result<(), Fail> {
    let slots = Slots::<DayImage>::new(rt.alloc(), 20)?;
    let table = SetTable::new(rt.alloc())?;
    asked_by_another::<_, _, Brand>(&rt, rt.alloc(), &slots, &table)
}
