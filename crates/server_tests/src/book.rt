//! Sessions of several clients that share one book, by the function that the program calls.

ghost use Rattle.std.specs.Prelude.{◌≡◌};

use crate::client::{ask_last, connect, expect, send};
use crate::server::{is_turned_away, listen};
use mgn_ids::SessionNo;
use mgn_ledger::{DayImage, Image};
use mgn_machine::Command;
use mgn_seat::Alone;
use mgn_service::{Gate, Point, Service, Through};
use mgn_session::NoFiles;
use mgn_setfile::read_set;
use mgn_slots::{SlotNames, Slots};
use mgn_table::{SetTable, TableName};
use spand_lib::Fault;
use spand_serve::{FaultLines, Serving, serve};
use std::alloc::{AllocError, Global};
use std::marker::Brand;
use std::net::{Net, SocketAddr, TcpListener, TcpStream};
use std::process::Abort;
use std::sync::atomic::{AtomicBool, Ordering};
use std::sync::{Mutex, Wait};
use std::test::Fail;
use std::thread;
use std::thread::Threads;
use std::time::{Clock, Duration};
use worked_sets::one;

/// How often a wait looks before it gives up, a millisecond apart.
const TURNS: u32 = 10_000;

/// What a server said, how it ended, and whether its gate was passed in time.
#[derive(Drop)]
struct Ended {
    out: Vec<u8>,
    errors: Vec<u8>,
    entries: Result<u64, Fault>,
}

/// Keeps the first session's calls where their desks have moved, until it is opened.
#[derive(Drop)]
struct Latch<'r, R> {
    rt: &'r R,
    is_open: AtomicBool,
    is_missed: AtomicBool,
}

impl<'r, R: Clock> Latch<'r, R> {
    fn new(rt: &'r R) -> Latch<'r, R> {
        Latch {
            rt,
            is_open: AtomicBool::new(false),
            is_missed: AtomicBool::new(false),
        }
    }

    fn open(&self) {
        self.is_open.store(true, Ordering::SeqCst);
    }

    fn is_missed(&self) -> bool {
        self.is_missed.load(Ordering::SeqCst)
    }
}

impl<'r, R: Clock> Gate for Latch<'r, R> {
    fn at(&self, point: Point, session: SessionNo) {
        if point != Point::Applied || session.number() != 1 {
            return;
        }
        for _turn in 0..TURNS {
            if self.is_open.load(Ordering::SeqCst) {
                return;
            }
            thread::sleep(self.rt, Duration::from_millis(1));
        }
        self.is_missed.store(true, Ordering::SeqCst);
    }
}

/// Who is served.
#[derive(Drop)]
struct Scene<'g, G> {
    /// How many of the service's passes somebody else has taken.
    taken: u8,
    /// Whether somebody else's history has given the first of the slots a value.
    is_spoiled: bool,
    sessions: usize,
    gate: &'g G,
    listener: TcpListener,
}

// A service of whose passes so many are gone.
fn service_of<'a, R: Wait, T: Image, J: TableName + SlotNames>(
    rt: &R,
    alloc: Global,
    slots: &'a Slots<T>,
    table: &'a SetTable,
    taken: u8,
) -> Result<Service<'a, T, J>, Fail>
    requires slots { slots.now ≡ J.slots }
    requires table { table.now ≡ J.table }
{
    let set = read_set(alloc, one().as_bytes())?;
    let service = Service::<T, J>::new(rt, alloc, slots, table, set, 4)?;
    for _ in 0..taken {
        drop(service.pass(rt));
    }
    Ok(service)
}

// Another service over the same slots makes a call.
fn spoil<R: Wait, T: Image, J: TableName + SlotNames>(
    rt: &R,
    alloc: Global,
    slots: &Slots<T>,
    table: &SetTable,
) -> Result<(), Fail>
    requires slots { slots.now ≡ J.slots }
    requires table { table.now ≡ J.table }
{
    let other = service_of::<_, T, J>(rt, alloc, slots, table, 0)?;
    let mut pass = other.pass(rt).ok_or("a pass")?;
    other
        .exec(rt, &mut pass, &Through, &Command::EndDay)
        .place
        .ok_or("a place")?;
    Ok(())
}

// Nobody's files, so many times.
fn sources(alloc: Global, count: usize) -> Result<Vec<NoFiles>, AllocError> {
    let mut sources = Vec::with_capacity(alloc, count)?;
    for _ in 0..count {
        sources.push(NoFiles)?;
    }
    Ok(sources)
}

// Serves while clients play.
fn play<
    R: Threads + Wait + Sync,
    T: Image + Send + Sync,
    J: TableName + SlotNames + Send + Sync,
    G: Gate + Sync,
    C: FnOnce(SocketAddr) + Send,
>(
    rt: &R,
    alloc: Global,
    slots: &Slots<T>,
    table: &SetTable,
    scene: Scene<'_, G>,
    clients: C,
) -> Result<Ended, Fail>
    requires slots { slots.now ≡ J.slots }
    requires table { table.now ≡ J.table }
    requires clients { C.IsAlwaysCallable clients }
{
    let Scene {
        taken,
        is_spoiled,
        sessions,
        gate,
        listener,
    } = scene;
    let address = listener.local_addr()?;
    if is_spoiled {
        spoil::<_, T, J>(rt, alloc, slots, table)?;
    }
    let serving = Serving {
        service: service_of::<_, T, J>(rt, alloc, slots, table, taken)?,
        gate,
        workers: &Alone,
        listener,
        sources: sources(alloc, sessions)?,
    };
    let faults = Mutex::new(FaultLines(Vec::new(alloc)));
    let lent = &faults;
    let ((), (out, entries)) = thread::join(
        rt,
        move || clients(address),
        move || {
            let mut out = Vec::new(alloc);
            let entries = serve(rt, alloc, serving, &mut out, lent);
            (out, entries)
        },
    );
    Ok(Ended {
        out,
        errors: faults.into_inner().0,
        entries,
    })
}

// Whether the server said that it was ready on its port, and then this.
fn said(alloc: Global, ended: &Ended, port: u16, rest: &str) -> Result<bool, Fail> {
    let wanted = format!(in alloc; "READY {port}\n{rest}")?;
    Ok(ended.out.as_slice() == wanted.as_bytes())
}

// Sends lines one after the other, and waits for the reply to each.
fn talk<R: Abort>(rt: &R, client: &TcpStream, lines: &[(&str, &str)]) {
    for (line, reply) in lines {
        send(rt, client, line);
        expect(rt, client, reply);
    }
}

const BEGIN: [(&str, &str); 3] = [
    ("ORIGIN CUST GROSS\n", "OK 1\n"),
    ("OPEN A1 CUST\n", "OK 2\n"),
    ("POST A1 CASH 1000\n", "OK 3\n"),
];

fn one_after_the_other<R: Net<Stream = TcpStream> + Alloc + Abort>(rt: &R, address: SocketAddr) {
    let first = connect(rt, address);
    talk(rt, &first, &BEGIN);
    talk(
        rt,
        &first,
        &[
            ("TRADE A1 1 AAA1 2 0\n", "OK 4\n"),
            ("ASK A1\n", "OK 5 600 600 1000 1000 400\n"),
        ],
    );
    let replies = ask_last(rt, connect(rt, address), "ASK A1\nTOTAL CU");
    assert!(rt; replies.as_str() == "OK 6 600 600 1000 1000 400\n");
    let replies = ask_last(rt, first, "ASK A1\n");
    assert!(rt; replies.as_str() == "OK 7 600 600 1000 1000 400\n");
}

// The same over slots and a table of its own.
fn staged<R: Threads + Wait + Sync, G: Gate + Sync, C: FnOnce(SocketAddr) + Send>(
    rt: &R,
    alloc: Global,
    scene: Scene<'_, G>,
    clients: C,
) -> Result<Ended, Fail>
    requires clients { C.IsAlwaysCallable clients }
{
    let slots = Slots::<DayImage>::new(alloc, 20)?;
    let table = SetTable::new(alloc)?;
    play::<_, _, Brand, _, _>(rt, alloc, &slots, &table, scene, clients)
}

#[test]
fn sessions_share_a_book(rt: HostRuntime) -> Result<(), Fail> {
    let rt = &rt;
    let listener = listen(rt);
    let port = listener.local_addr()?.port();
    let scene = Scene {
        taken: 0,
        is_spoiled: false,
        sessions: 2,
        gate: &Through,
        listener,
    };
    let ended = staged(
        rt,
        rt.alloc(),
        scene,
        |address| one_after_the_other(rt, address),
    )?;
    assert!(rt; said(rt.alloc(), &ended, port, "AUDIT 7\n")?);
    assert!(rt; ended.errors.is_empty() && matches!(ended.entries, Ok(7)));
    Ok(())
}

fn both_at_once<R: Net<Stream = TcpStream> + Alloc + Abort>(rt: &R, address: SocketAddr) {
    let first = connect(rt, address);
    let second = connect(rt, address);
    talk(rt, &first, &BEGIN);
    send(rt, &first, "HOLD A1 1 AAA1 2 0\n");
    send(rt, &second, "HOLD A1 2 AAA1 2 0\n");
    let mine = ask_last(rt, first, "");
    let theirs = ask_last(rt, second, "");
    let done = "OK 4\n";
    let refused = "ERR 5 30 NOROOM\n";
    assert!(rt;
        (mine.as_str() == done && theirs.as_str() == refused)
            || (mine.as_str() == refused && theirs.as_str() == done)
    );
}

#[test]
fn of_two_orders_at_once_one_has_room(rt: HostRuntime) -> Result<(), Fail> {
    let rt = &rt;
    let scene = Scene {
        taken: 0,
        is_spoiled: false,
        sessions: 2,
        gate: &Through,
        listener: listen(rt),
    };
    let ended = staged(rt, rt.alloc(), scene, |address| both_at_once(rt, address))?;
    assert!(rt; ended.errors.is_empty() && matches!(ended.entries, Ok(5)));
    Ok(())
}

fn two_units<R: Net<Stream = TcpStream> + Clock + Abort>(
    rt: &R,
    address: SocketAddr,
    latch: &Latch<'_, R>,
) {
    let first = connect(rt, address);
    let second = connect(rt, address);
    talk(
        rt,
        &second,
        &[
            ("ORIGIN CUST GROSS\n", "OK 1\n"),
            ("OPEN A1 CUST\n", "OK 2\n"),
            ("OPEN A2 CUST\n", "OK 3\n"),
        ],
    );
    send(rt, &first, "TRADE A1 1 AAA1 1 0\n");
    talk(rt, &second, &[("TRADE A2 1 AAA1 1 0\n", "OK 4\n")]);
    latch.open();
    expect(rt, &first, "OK 5\n");
}

#[test]
fn commands_of_two_units_overlap(rt: HostRuntime) -> Result<(), Fail> {
    let rt = &rt;
    let latch = Latch::new(rt);
    let scene = Scene {
        taken: 0,
        is_spoiled: false,
        sessions: 2,
        gate: &latch,
        listener: listen(rt),
    };
    let ended = staged(
        rt,
        rt.alloc(),
        scene,
        |address| two_units(rt, address, &latch),
    )?;
    assert!(rt; !latch.is_missed());
    assert!(rt; ended.errors.is_empty() && matches!(ended.entries, Ok(5)));
    Ok(())
}

fn one_pass_for_three<R: Net<Stream = TcpStream> + Alloc + Abort>(rt: &R, address: SocketAddr) {
    let first = connect(rt, address);
    assert!(rt; is_turned_away(rt, address) && is_turned_away(rt, address));
    talk(rt, &first, &BEGIN);
}

#[test]
fn a_connection_without_a_pass_is_closed(rt: HostRuntime) -> Result<(), Fail> {
    let rt = &rt;
    let listener = listen(rt);
    let port = listener.local_addr()?.port();
    let scene = Scene {
        taken: 15,
        is_spoiled: false,
        sessions: 3,
        gate: &Through,
        listener,
    };
    let ended = staged(
        rt,
        rt.alloc(),
        scene,
        |address| one_pass_for_three(rt, address),
    )?;
    let lines = "spand: session 2 MEMORY\nspand: session 3 MEMORY\n";
    assert!(rt; ended.errors.as_slice() == lines.as_bytes());
    // The audit misses the passes that are gone.
    assert!(rt; said(rt.alloc(), &ended, port, "")? && matches!(ended.entries, Err(Fault::Passes)));
    Ok(())
}

// The first command finds its history unfit, and each command after it, of whichever session. All else is answered as
// ever.
fn all_is_broken<R: Net<Stream = TcpStream> + Alloc + Abort>(rt: &R, address: SocketAddr) {
    let first = connect(rt, address);
    let second = connect(rt, address);
    talk(
        rt,
        &first,
        &[
            ("ORIGIN CUST GROSS\n", "ERR 92 BROKEN\n"),
            ("ORIGIN\n", "ERR 10 SYNTAX\n"),
        ],
    );
    talk(
        rt,
        &second,
        &[
            ("ASK A1\n", "ERR 92 BROKEN\n"),
            ("SWITCH ONE\n", "ERR 40 NOSET\n"),
        ],
    );
    let replies = ask_last(rt, first, "TOTAL CUST\nEND\n");
    assert!(rt; replies.as_str() == "ERR 92 BROKEN\nERR 92 BROKEN\n");
}

#[test]
fn a_broken_history_takes_no_command(rt: HostRuntime) -> Result<(), Fail> {
    let rt = &rt;
    let listener = listen(rt);
    let port = listener.local_addr()?.port();
    let scene = Scene {
        taken: 0,
        is_spoiled: true,
        sessions: 2,
        gate: &Through,
        listener,
    };
    let ended = staged(rt, rt.alloc(), scene, |address| all_is_broken(rt, address))?;
    assert!(rt; said(rt.alloc(), &ended, port, "")? && ended.errors.is_empty());
    assert!(rt; matches!(ended.entries, Err(Fault::Unmatched(1))));
    Ok(())
}
