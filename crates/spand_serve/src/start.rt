ghost use Rattle.std.specs.Prelude.{◌≡◌};

use crate::day::{Serving, serve};
use crate::fault_lines::FaultLines;
use crate::marking::WORKERS;
use mgn_book::MOST_ENTRIES;
use mgn_ids::MOST_SESSIONS;
use mgn_ledger::DayImage;
use mgn_params::ParamSet;
use mgn_seat::Switches;
use mgn_service::{Service, Through};
use mgn_session::SetSource;
use mgn_slots::{SlotNames, Slots};
use mgn_table::{SetTable, TableName};
use spand_lib::Fault;
use std::alloc::{AllocError, Global};
use std::io;
use std::io::Write;
use std::marker::Brand;
use std::net::TcpListener;
use std::sync::{Mutex, Wait};
use std::thread::Threads;

/// Who is served.
#[derive(Drop)]
pub struct Clients<S, B> {
    /// How many sessions there are, 1 to 16.
    pub sessions: u8,
    /// Where each session has its further sets from: a copy of this.
    pub source: S,
    /// Makes the listener, once the book stands.
    pub bind: B,
}

/// Where the server tells of itself: `READY` and `AUDIT`, and the faults of sessions.
#[derive(Drop)]
pub struct Writers<O, F> {
    pub out: O,
    pub errors: F,
}

/// Serves sessions over connections under a first set, and returns once all of them have ended. `Memory` where the
/// book's service is refused memory, `Port` where the listener is not to be had; else as `serve`.
pub fn run<
    R: Threads + Wait + Sync,
    W: Switches + Sync,
    S: SetSource + Copy + Send + Drop,
    B: FnOnce() -> io::Result<TcpListener> + Drop,
    O: Write + Drop,
    F: Write + Send + Drop,
>(
    rt: &R,
    alloc: Global,
    first: ParamSet,
    clients: Clients<S, B>,
    workers: &W,
    writers: Writers<O, F>,
) -> Result<(), Fault>
    requires { B.IsAlwaysCallable clients.bind }
{
    let slots = Slots::<DayImage>::new(alloc, MOST_ENTRIES)?;
    let table = SetTable::new(alloc)?;
    over::<_, Brand, _, _, _, _, _>(rt, alloc, &slots, &table, first, clients, workers, writers)
}

// So many copies of a source.
fn copies<S: Copy + Drop>(alloc: Global, source: S, count: u8) -> Result<Vec<S>, AllocError> {
    let mut copies = Vec::with_capacity(alloc, usize::from(MOST_SESSIONS))?;
    for _ in 0..count {
        copies.push(source)?;
    }
    Ok(copies)
}

fn over<
    R: Threads + Wait + Sync,
    J: TableName + SlotNames + Send + Sync,
    W: Switches + Sync,
    S: SetSource + Copy + Send + Drop,
    B: FnOnce() -> io::Result<TcpListener> + Drop,
    O: Write + Drop,
    F: Write + Send + Drop,
>(
    rt: &R,
    alloc: Global,
    slots: &Slots<DayImage>,
    table: &SetTable,
    first: ParamSet,
    clients: Clients<S, B>,
    workers: &W,
    writers: Writers<O, F>,
) -> Result<(), Fault>
    requires slots { slots.now ≡ J.slots }
    requires table { table.now ≡ J.table }
    requires bind { B.IsAlwaysCallable clients.bind }
{
    let Clients {
        sessions,
        source,
        bind,
    } = clients;
    let Writers { mut out, errors } = writers;
    let service = Service::<DayImage, J>::new(rt, alloc, slots, table, first, WORKERS)?;
    let sources = copies(alloc, source, sessions)?;
    let Ok(listener) = bind() else {
        return Err(Fault::Port);
    };
    let serving = Serving {
        service,
        gate: &Through,
        workers,
        listener,
        sources,
    };
    let faults = Mutex::new(FaultLines(errors));
    day(rt, alloc, serving, &mut out, &faults).map(|_| ())
}

// A day of a service whose slots are given images.
fn day<
    R: Threads + Wait + Sync,
    J: TableName + SlotNames + Send + Sync,
    W: Switches + Sync,
    S: SetSource + Send + Drop,
    O: Write,
    F: Write + Send + Drop,
>(
    rt: &R,
    alloc: Global,
    serving: Serving<'_, '_, DayImage, J, Through, W, S>,
    out: &mut O,
    faults: &Mutex<FaultLines<F>>,
) -> Result<u64, Fault> {
    serve(rt, alloc, serving, out, faults)
}
