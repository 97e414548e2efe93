ghost use Rattle.std.specs.Prelude.{◌≡◌, ◌≤◌, [], IfOk, vec_len, vec_capacity, length};
ghost use Rattle.mgn_session.specs.Session.{Answers, Calls};
ghost use Rattle.mgn_server.specs.Served.{Leaves};

use crate::place::{Place, end_all};
use crate::report::FaultReport;
use crate::server::{Door, Server};
use mgn_session::{Exec, SetSource};
use std::alloc::{AllocError, Global};
use std::marker::Model;
use std::net::{TcpListener, TcpStream};
use std::sync::{Mutex, Wait};
use std::thread;
use std::thread::Threads;

/// Who is to answer connections: for each an executor, and the source of its sets. Contracts see the list of these.
///
/// All memory that serving takes is had when this is made, but for what threads take, and sessions for their lines.
#[derive(Drop)]
pub struct Seats<E: Exec, S: SetSource> {
    seats: Vec<(E, S)>,
    // Where each session finds its connection.
    connections: Vec<Mutex<Option<TcpStream>>>,
    places: Vec<Place<E, S>>,
    executors: Vec<E>,
}

impl<E: Exec, S: SetSource> Model for Seats<E, S> {
    ghost use Rattle.std.specs.Prelude.{◌≡◌, ◌≤◌, [], List, vec_len, vec_capacity};

    ghost Value = { List (E × S) };

    ghost view = { λ seats. seats.seats.items };

    ghost invariant = { λ seats. (vec_len seats.connections ≡ vec_len seats.seats)
        × (seats.places.items ≡ []) × (vec_len seats.seats ≤ vec_capacity seats.places)
        × (seats.executors.items ≡ []) × (vec_len seats.seats ≤ vec_capacity seats.executors) };
}

/// What is left once all sessions have ended.
#[derive(Drop)]
pub struct Served<E> {
    /// The executors of all seats, in their order.
    pub executors: Vec<E>,
    /// How many connections were accepted. Where there were more seats, accepting failed.
    pub accepted: usize,
}

// As many empty places for connections.
fn no_connections(alloc: Global, count: usize) -> Result<Vec<Mutex<Option<TcpStream>>>, AllocError>
    ensures { IfOk result (λ connections. vec_len connections ≡ count) }
{
    let mut connections = Vec::with_capacity(alloc, count)?;
    for _ in 0..count {
        connections.push_reserved(Mutex::new(None));
    }
    Ok(connections)
}

impl<E: Exec + Drop, S: SetSource + Drop> Seats<E, S> {
    /// Seats for as many connections, the first for the one that is accepted first. An error says that memory was refused;
    /// the seats are then dropped.
    pub fn new(alloc: Global, seats: Vec<(E, S)>) -> Result<Seats<E, S>, AllocError>
        ensures { IfOk result (λ made. made ≡ seats.items) }
    {
        let count = seats.len();
        Ok(Seats {
            connections: no_connections(alloc, count)?,
            places: Vec::with_capacity(alloc, count)?,
            executors: Vec::with_capacity(alloc, count)?,
            seats,
        })
    }
}

impl<E: Exec + Send + Drop, S: SetSource + Send + Drop> Seats<E, S> {
    /// Accepts as many connections as there are seats, answers the lines of each on a thread of its own, and returns once all
    /// sessions have ended. What is done to a seat is what the lines of its session ask for, in their order, and nothing
    /// else. It fails at nothing: what can go wrong is in the result, or told.
    ///
    /// After these it accepts `more` connections, closes each without a reply, and tells that there was no seat. The listener
    /// is closed after the last connection, while sessions still run. Where accepting fails no more
    /// connections are taken. Where a session ends by a fault its connection is closed and the fault told, and the others
    /// go on. A connection for which no thread can be had is closed without a reply, which is told too.
    pub fn serve<R: Threads + Wait + Sync, F: FaultReport + Send>(
        self,
        rt: &R,
        alloc: Global,
        listener: TcpListener,
        more: usize,
        faults: &Mutex<F>,
    ) -> Served<E>
        ensures { Leaves (Answers (Calls E.entries E.is_full E.is_broken E.does) S.gives)
            self more result.executors.items result.accepted }
    {
        let Seats {
            seats,
            connections,
            places,
            executors,
        } = self;
        let connections = connections.as_slice();
        thread::scope(
            thread::scope_env(),
            rt,
            |scope| -> Served<E>
                requires { (length connections.now ≡ vec_len seats)
                    × (places.items ≡ []) × (vec_len seats ≤ vec_capacity places)
                    × (executors.items ≡ []) × (vec_len seats ≤ vec_capacity executors) }
                ensures { Leaves (Answers (Calls E.entries E.is_full E.is_broken E.does) S.gives)
                    seats.items more result.executors.items result.accepted }
            {
                let server = Server {
                    rt,
                    alloc,
                    scope,
                    connections,
                    faults,
                };
                let mut door = Door::new(listener);
                let places = server.place_all(&mut door, seats, places);
                server.turn_away(&mut door, more);
                let accepted = door.accepted;
                // One more client is to be refused, and not to wait until the sessions have ended.
                drop(door);
                Served {
                    executors: end_all(rt, places, executors),
                    accepted,
                }
            },
        )
    }
}
