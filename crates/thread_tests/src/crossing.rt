//! Which types may go to another thread, and which several threads may read. A type that loses either is told here, at
//! its name, and not where a thread is started.

use mgn_book::Book;
use mgn_desk::Desk;
use mgn_ledger::{DayImage, Gathered, Image, Ledger, Pass};
use mgn_machine::{Answer, Command, Reply, Request, SharedStatement};
use mgn_params::ParamSet;
use mgn_register::Register;
use mgn_seat::{Seat, Switches};
use mgn_service::{Gate, Service, Sight, Through, UnitDesk, Workers};
use mgn_slots::{SlotNames, Slots, Stamp, Stamps};
use mgn_table::{SetTable, TableName, Tokens};
use mgn_unit::{CopiedNets, PreparedUnit, PreparedUnits, Row};
use std::marker::Brand;
use std::sync::{Mutex, Wait};
use std::test::Fail;

fn crosses<X: Send>() {}

fn shared<X: Sync>() {}

#[test]
fn what_is_asked_and_answered_crosses(_rt: HostRuntime) -> Result<(), Fail> {
    crosses::<Command>();
    crosses::<Request>();
    crosses::<Reply>();
    crosses::<Answer>();
    crosses::<SharedStatement>();
    Ok(())
}

#[test]
fn sets_and_units_cross(_rt: HostRuntime) -> Result<(), Fail> {
    crosses::<ParamSet>();
    shared::<ParamSet>();
    shared::<SetTable>();
    crosses::<Row>();
    crosses::<CopiedNets>();
    shared::<CopiedNets>();
    crosses::<PreparedUnit>();
    crosses::<PreparedUnits>();
    crosses::<Desk>();
    Ok(())
}

#[test]
fn the_book_crosses(_rt: HostRuntime) -> Result<(), Fail> {
    crosses::<Register>();
    crosses::<Book>();
    shared::<Mutex<Book>>();
    Ok(())
}

// What stands over slots and a table, whatever a program picks for these.
fn over_slots<'a, T: Image + Send + Sync + 'a, J: TableName + SlotNames + Send + Sync + 'a>() {
    crosses::<Tokens<J>>();
    shared::<Slots<T>>();
    crosses::<Stamp<'a, T, J>>();
    crosses::<Stamps<'a, T, J>>();
    crosses::<Pass<'a, T, J>>();
    crosses::<Gathered<'a, T, J>>();
    crosses::<Ledger<'a, T, J>>();
    crosses::<Sight<'a, T, J>>();
    crosses::<UnitDesk<'a, T, J>>();
    shared::<Service<'a, T, J>>();
}

// A seat crosses wherever the runtime and the gate can be read by several threads.
fn seats<
    's,
    'a: 's,
    R: Wait + Sync + 's,
    T: Image + Send + Sync + 'a,
    J: TableName + SlotNames + Send + Sync + 'a,
    G: Gate + Sync + 's,
    W: Switches + Sync + 's,
>(_rt: &R) {
    crosses::<Seat<'s, 'a, R, T, J, G, W>>();
}

#[test]
fn the_service_is_shared_and_its_seats_cross(rt: HostRuntime) -> Result<(), Fail> {
    over_slots::<DayImage, Brand>();
    shared::<Workers>();
    seats::<_, DayImage, Brand, Through, Workers>(&rt);
    Ok(())
}
