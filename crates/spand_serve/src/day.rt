ghost use Rattle.std.specs.Prelude.{◌≡◌, ◌≤◌, [], All, IfOk, Ok, vec_len, vec_capacity};
ghost use Rattle.spand_serve.specs.Served.{IsFresh, IsServed};

use crate::fault_lines::FaultLines;
use mgn_ledger::{AuditFault, Image, Pass};
use mgn_seat::{Seat, Switches};
use mgn_server::{Seats, Served};
use mgn_service::{Gate, Service};
use mgn_session::SetSource;
use mgn_slots::SlotNames;
use mgn_table::TableName;
use spand_lib::Fault;
use std::alloc::{AllocError, Global};
use std::io::Write;
use std::net::TcpListener;
use std::sync::{Mutex, Wait};
use std::thread::Threads;

/// What is served: a service whose passes are still to be made, with a gate that each call passes and the workers of
/// its switches, to the connections of a listener.
#[derive(Drop)]
pub struct Serving<'g, 'a, T: Image, J: TableName + SlotNames, G: Gate, W: Switches, S: SetSource> {
    pub service: Service<'a, T, J>,
    pub gate: &'g G,
    pub workers: &'g W,
    pub listener: TcpListener,
    /// Where the session of each connection has its sets from. There are as many connections as sources.
    pub sources: Vec<S>,
}

// A seat for each source, in order of their passes, as long as there are passes.
fn seats_of<
    's,
    'a,
    R: Wait,
    T: Image,
    J: TableName + SlotNames,
    G: Gate,
    W: Switches,
    S: SetSource + Drop,
>(
    rt: &'s R,
    alloc: Global,
    service: &'s Service<'a, T, J>,
    gate: &'s G,
    workers: &'s W,
    sources: Vec<S>,
) -> Result<Vec<(Seat<'s, 'a, R, T, J, G, W>, S)>, AllocError>
    ensures { IfOk result (λ seats. All (λ seat. IsFresh seat.0) seats.items) }
{
    let mut seats = Vec::with_capacity(alloc, sources.len())?;
    for source in sources {
        let Some(pass) = service.pass(rt) else {
            break;
        };
        let seat = Seat::new(rt, service, gate, pass, workers);
        seats.push_reserved((seat, source));
    }
    Ok(seats)
}

// The passes of the seats, in their order.
fn take_passes<'a, R: Wait, T: Image, J: TableName + SlotNames, G: Gate, W: Switches>(
    seats: Vec<Seat<'_, 'a, R, T, J, G, W>>,
    mut passes: Vec<Pass<'a, T, J>>,
) -> Vec<Pass<'a, T, J>>
    requires empty { passes.items ≡ [] }
    requires room { vec_len seats ≤ vec_capacity passes }
    ensures { result.items ≡ seats.entry.items }
{
    for seat in seats {
        passes.push_reserved(seat.into_pass());
    }
    passes
}

fn audit_fault(fault: AuditFault) -> Fault {
    match fault {
        AuditFault::Passes => Fault::Passes,
        AuditFault::Unmatched(session) => Fault::Unmatched(session.number()),
    }
}

// How the server ends: that accepting failed comes before what the audit says.
fn end<O: Write>(out: &mut O, audited: Result<u64, AuditFault>, has_all: bool) -> Result<u64, Fault>
    ensures { IfOk result (λ entries. audited ≡ Ok entries) }
{
    let told = match audited {
        Ok(entries) => writeln!(out, "AUDIT {entries}").and_then(|()| out.flush()),
        Err(_) => Ok(()),
    };
    if !has_all {
        return Err(Fault::Port);
    }
    match (audited, told) {
        (Ok(entries), Ok(())) => Ok(entries),
        (Ok(_), Err(_)) => Err(Fault::ServerOutput),
        (Err(fault), _) => Err(audit_fault(fault)),
    }
}

/// Serves as many connections as there are sources of sets, each on a thread of its own, and gives the number of the
/// history's entries once all have ended. It tells `READY` with the port once a client can connect, `AUDIT` with that
/// number at the end, and of each session's fault as it comes; the sessions of the others go on.
///
/// The connections have passes in order of accepting. Where there is no pass for one it is closed without a reply,
/// which is told.
/// `Memory` comes before the first connection. Where accepting fails no more connections are taken, those that run come to
/// their end, and it is `Port`, whatever the audit says. `Passes` and `Unmatched` are what the audit says, and
/// `ServerOutput` comes where all else went well and what is told of the beginning or the end could not be written.
pub fn serve<
    R: Threads + Wait + Sync,
    T: Image + Send + Sync,
    J: TableName + SlotNames + Send + Sync,
    G: Gate + Sync,
    W: Switches + Sync,
    S: SetSource + Send + Drop,
    O: Write,
    F: Write + Send + Drop,
>(
    rt: &R,
    alloc: Global,
    serving: Serving<'_, '_, T, J, G, W, S>,
    out: &mut O,
    faults: &Mutex<FaultLines<F>>,
) -> Result<u64, Fault>
    ensures { IfOk result (λ entries. IsServed S.gives entries) }
{
    let Serving {
        service,
        gate,
        workers,
        listener,
        sources,
    } = serving;
    let Ok(address) = listener.local_addr() else {
        return Err(Fault::Port);
    };
    let count = sources.len();
    let seats = seats_of(rt, alloc, &service, gate, workers, sources)?;
    let more = count.saturating_sub(seats.len());
    let passes = Vec::with_capacity(alloc, seats.len())?;
    let seats = Seats::new(alloc, seats)?;
    let ready = writeln!(out, "READY {}", address.port()).and_then(|()| out.flush());
    let Served {
        executors,
        accepted,
    } = seats.serve(rt, alloc, listener, more, faults);
    let passes = take_passes(executors, passes);
    let ended = end(out, service.close(passes), accepted == count);
    match ready {
        Ok(()) => ended,
        Err(_) => ended.and(Err(Fault::ServerOutput)),
    }
}
