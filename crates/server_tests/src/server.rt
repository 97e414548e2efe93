//! Sessions of several clients at once.

use crate::client::{ask_last, connect, expect, send};
use crate::fakes::{Refusing, Told};
use mgn_server::{ConnectionFault, Seats, Served};
use mgn_session::{NoFiles, SessionFault};
use std::alloc::{AllocError, Global};
use std::io::{ErrorKind, Read};
use std::net::{Net, Shutdown, SocketAddr, TcpListener, TcpStream};
use std::os::fd::OwnedFd;
use std::process::Abort;
use std::sync::{Mutex, Wait};
use std::test::Fail;
use std::thread;
use std::thread::Threads;
use std::time::Duration;

// Seats whose executors answer `FULL` where it says so, and else `BROKEN`.
fn seats(alloc: Global, are_full: &[bool]) -> Result<Seats<Refusing, NoFiles>, AllocError> {
    let mut seats = Vec::with_capacity(alloc, are_full.len())?;
    for is_full in are_full {
        let executor = Refusing {
            is_full: *is_full,
            calls: 0,
        };
        seats.push((executor, NoFiles))?;
    }
    Seats::new(alloc, seats)
}

// Serves while a client plays, and gives what is left with what was told.
fn serve<R: Threads + Wait + Abort + Sync, C: FnOnce(SocketAddr) + Send>(
    rt: &R,
    alloc: Global,
    listener: TcpListener,
    seats: Seats<Refusing, NoFiles>,
    more: usize,
    client: C,
) -> (Served<Refusing>, Told)
    requires { C.IsAlwaysCallable client }
{
    let Ok(address) = listener.local_addr() else {
        panic!(rt; "no address")
    };
    let told = Mutex::new(Told {
        count: 0,
        last: None,
    });
    let faults = &told;
    let ((), served) = thread::join(
        rt,
        move || client(address),
        move || seats.serve(rt, alloc, listener, more, faults),
    );
    (served, told.into_inner())
}

// Whether these sessions, so many commands each, ended without a fault.
fn is_whole(served: &Served<Refusing>, told: &Told, calls: &[u64]) -> bool {
    served.accepted == calls.len()
        && told.last.is_none()
        && told.count == 0
        && has_calls(served, calls)
}

// Whether the executors came back in their order, which these numbers of calls show.
fn has_calls(served: &Served<Refusing>, calls: &[u64]) -> bool {
    served.executors.len() == calls.len()
        && served
            .executors
            .iter()
            .zip(calls)
            .all(|(executor, calls)| executor.calls == *calls)
}

pub fn listen<R: Net<Listener = TcpListener, Stream = TcpStream> + Abort>(rt: &R) -> TcpListener {
    let Ok(listener) = TcpListener::bind(rt, "127.0.0.1:0") else {
        panic!(rt; "no listener")
    };
    listener
}

#[test]
fn each_session_has_its_own_replies(rt: HostRuntime) -> Result<(), Fail> {
    let rt = &rt;
    let seats = seats(rt.alloc(), &[false, true])?;
    let (served, told) = serve(rt, rt.alloc(), listen(rt), seats, 0, |address| {
        let first = connect(rt, address);
        send(rt, &first, "END\n");
        expect(rt, &first, "ERR 92 BROKEN\n");
        let second = connect(rt, address);
        send(rt, &second, "END\nTHIS\nEND\n");
        expect(rt, &second, "ERR 91 FULL\nERR 10 SYNTAX\nERR 91 FULL\n");
        send(rt, &first, "THIS\n");
        expect(rt, &first, "ERR 10 SYNTAX\n");
    });
    assert!(rt; is_whole(&served, &told, &[1, 2]));
    Ok(())
}

#[test]
fn no_seats_and_no_client(rt: HostRuntime) -> Result<(), Fail> {
    let rt = &rt;
    let seats = seats(rt.alloc(), &[])?;
    let (served, told) = serve(rt, rt.alloc(), listen(rt), seats, 0, |_| ());
    assert!(rt; is_whole(&served, &told, &[]));
    Ok(())
}

#[test]
fn a_half_line_is_dropped(rt: HostRuntime) -> Result<(), Fail> {
    let rt = &rt;
    let seats = seats(rt.alloc(), &[false])?;
    let (served, told) = serve(rt, rt.alloc(), listen(rt), seats, 0, |address| {
        let replies = ask_last(rt, connect(rt, address), "END\nTHIS\nEND");
        assert!(rt; replies.as_str() == "ERR 92 BROKEN\nERR 10 SYNTAX\n");
    });
    assert!(rt; is_whole(&served, &told, &[1]));
    Ok(())
}

#[test]
fn single_bytes_make_no_difference(rt: HostRuntime) -> Result<(), Fail> {
    let rt = &rt;
    let seats = seats(rt.alloc(), &[false])?;
    let (served, told) = serve(rt, rt.alloc(), listen(rt), seats, 0, |address| {
        let client = connect(rt, address);
        for byte in ["E", "N", "D", "\n", "T", "\n", "E", "N", "D"] {
            send(rt, &client, byte);
        }
        let replies = ask_last(rt, client, "\n");
        assert!(rt; replies.as_str() == "ERR 92 BROKEN\nERR 10 SYNTAX\nERR 92 BROKEN\n");
    });
    assert!(rt; is_whole(&served, &told, &[2]));
    Ok(())
}

// Sends many lines before it reads a reply, and closes its half.
fn ask_much<R: Abort + Alloc>(rt: &R, client: TcpStream) {
    for _ in 0..1000u16 {
        send(rt, &client, "THIS\n");
    }
    let replies = ask_last(rt, client, "END\n");
    let mut lines = 0u64;
    for line in replies.as_str().lines() {
        lines = lines.saturating_add(1);
        let reply = if lines <= 1000 {
            "ERR 10 SYNTAX"
        } else {
            "ERR 91 FULL"
        };
        assert!(rt; line == reply, "at {lines}");
    }
    assert!(rt; lines == 1001);
}

#[test]
fn a_closed_half_gets_all_replies(rt: HostRuntime) -> Result<(), Fail> {
    let rt = &rt;
    let seats = seats(rt.alloc(), &[true])?;
    let (served, told) = serve(rt, rt.alloc(), listen(rt), seats, 0, |address| {
        ask_much(rt, connect(rt, address));
    });
    assert!(rt; is_whole(&served, &told, &[1]));
    Ok(())
}

// Leaves a reply unread, for which the system resets the connection.
fn vanish<R: Abort>(rt: &R, client: TcpStream) {
    send(rt, &client, "END\n");
    let mut byte = [0; 1];
    assert!(rt; matches!(client.peek(&mut byte), Ok(1)));
}

#[test]
fn a_client_that_vanishes_ends_its_session_alone(rt: HostRuntime) -> Result<(), Fail> {
    let rt = &rt;
    let seats = seats(rt.alloc(), &[false, true, false])?;
    let (served, told) = serve(rt, rt.alloc(), listen(rt), seats, 0, |address| {
        let first = connect(rt, address);
        send(rt, &first, "END\n");
        expect(rt, &first, "ERR 92 BROKEN\n");
        vanish(rt, connect(rt, address));
        drop(connect(rt, address));
        send(rt, &first, "END\n");
        expect(rt, &first, "ERR 92 BROKEN\n");
    });
    assert!(rt; served.accepted == 3 && has_calls(&served, &[2, 1, 0]));
    assert!(rt; told.count == 1);
    assert!(rt;
        matches!(
            told.last,
            Some((
                2,
                ConnectionFault::Session(SessionFault::Read | SessionFault::Write)
            ))
        )
    );
    Ok(())
}

// A client for which there is no seat is refused, or its connection ends without a byte.
pub fn is_turned_away<R: Net<Stream = TcpStream>>(rt: &R, address: SocketAddr) -> bool {
    let Ok(mut client) = TcpStream::connect(rt, address) else {
        return true;
    };
    let mut byte = [0; 1];
    client
        .set_read_timeout(Some(Duration::from_secs(10)))
        .is_ok()
        && match client.read(&mut byte) {
            Ok(count) => count == 0,
            Err(error) => error.kind() != ErrorKind::WouldBlock,
        }
}

#[test]
fn one_client_more_is_turned_away(rt: HostRuntime) -> Result<(), Fail> {
    let rt = &rt;
    let seats = seats(rt.alloc(), &[false])?;
    let (served, told) = serve(rt, rt.alloc(), listen(rt), seats, 0, |address| {
        let first = connect(rt, address);
        assert!(rt; is_turned_away(rt, address));
        send(rt, &first, "END\n");
        expect(rt, &first, "ERR 92 BROKEN\n");
    });
    assert!(rt; is_whole(&served, &told, &[1]));
    Ok(())
}

#[test]
fn clients_without_a_seat_are_closed(rt: HostRuntime) -> Result<(), Fail> {
    let rt = &rt;
    let seats = seats(rt.alloc(), &[false])?;
    let (served, told) = serve(rt, rt.alloc(), listen(rt), seats, 2, |address| {
        let first = connect(rt, address);
        assert!(rt; is_turned_away(rt, address) && is_turned_away(rt, address));
        send(rt, &first, "END\n");
        expect(rt, &first, "ERR 92 BROKEN\n");
    });
    assert!(rt; served.accepted == 3 && has_calls(&served, &[1]));
    assert!(rt; told.count == 2 && matches!(told.last, Some((3, ConnectionFault::NoSeat))));
    Ok(())
}

// The same listener, as something that can be shut.
fn latch<R: Abort>(rt: &R, listener: &TcpListener) -> TcpStream {
    let Ok(other) = listener.try_clone() else {
        panic!(rt; "no second handle")
    };
    TcpStream::from(OwnedFd::from(other))
}

#[test]
fn sessions_go_on_where_accepting_fails(rt: HostRuntime) -> Result<(), Fail> {
    let rt = &rt;
    let listener = listen(rt);
    let latch = latch(rt, &listener);
    let seats = seats(rt.alloc(), &[false, true])?;
    let (served, told) = serve(rt, rt.alloc(), listener, seats, 0, |address| {
        let first = connect(rt, address);
        send(rt, &first, "END\n");
        expect(rt, &first, "ERR 92 BROKEN\n");
        assert!(rt; latch.shutdown(Shutdown::Read).is_ok());
        send(rt, &first, "END\n");
        expect(rt, &first, "ERR 92 BROKEN\n");
    });
    assert!(rt; served.accepted == 1 && has_calls(&served, &[2, 0]));
    assert!(rt; told.last.is_none());
    Ok(())
}
