ghost use Rattle.std.specs.Prelude.{◌≡◌, ◌⊎◌, ◌≤◌, ◌<◌, [], IfNone, IfSome, vec_len, vec_capacity, length, true, false};
ghost use Rattle.std.specs.List.{AllZip};
ghost use Rattle.mgn_session.specs.Session.{Answers, Calls};
ghost use Rattle.mgn_server.specs.Served.{HasServed};
ghost use Rattle.mgn_server.specs.Places.{Accepts, AreLeft, IsPlaceOf, Refuses, TurnsAway};

use crate::place::Place;
use crate::report::{ConnectionFault, FaultReport};
use crate::session::{ServedFrom, Session};
use mgn_session::{Exec, SetSource};
use std::alloc::Global;
use std::net::{TcpListener, TcpStream};
use std::snapshot::Snapshot;
use std::sync::{Mutex, Wait};
use std::thread::{Scope, Threads};

// Takes connections until that fails.
#[derive(Drop)]
pub struct Door {
    listener: TcpListener,
    // How many were taken.
    pub accepted: usize,
    has_failed: bool,
}

impl Door {
    pub fn new(listener: TcpListener) -> Door
        ensures accepted { result.accepted ≡ 0 }
        ensures open { result.has_failed ≡ false }
    {
        Door {
            listener,
            accepted: 0,
            has_failed: false,
        }
    }

    // The connection of this number, which is the next. None where accepting fails or has failed.
    fn accept(&mut self, number: usize) -> Option<TcpStream>
        ensures some { IfSome result (λ _. Accepts self.old self.new number) }
        ensures none { IfNone result (Refuses self.old self.new) }
    {
        if self.has_failed {
            return None;
        }
        match self.listener.accept() {
            Ok((stream, _)) => {
                self.accepted = number;
                Some(stream)
            }
            Err(_) => {
                self.has_failed = true;
                None
            }
        }
    }
}

// What all sessions share: where each finds its connection, where their faults are told, and the scope of their threads.
#[derive(Drop)]
pub struct Server<'s, 'e, R, F, Env> {
    pub rt: &'s R,
    pub alloc: Global,
    pub scope: &'e Scope<'s, Env>,
    pub connections: &'s [Mutex<Option<TcpStream>>],
    pub faults: &'s Mutex<F>,
}

impl<'s, R: Threads + Wait + Sync + 's, F: FaultReport + Send + 's, Env> Server<'s, '_, R, F, Env> {
    // Starts the session of a connection. Where no thread can be had the connection is closed and the session ends at once.
    fn start<E: Exec + Send + Drop + 's, S: SetSource + Send + Drop + 's>(
        &self,
        seat: (E, S),
        stream: TcpStream,
        number: usize,
    ) -> Place<E, S>
        requires first { 0 < number }
        requires last { number ≤ length self.now.connections.now }
        ensures { IsPlaceOf (Answers (Calls E.entries E.is_full E.is_broken E.does) S.gives) seat result }
    {
        let connection = &self.connections[number - 1];
        *connection.lock(self.rt) = Some(stream);
        let promise = ServedFrom(Snapshot::of(&seat));
        let session = Session {
            rt: self.rt,
            alloc: self.alloc,
            seat,
            connection,
            faults: self.faults,
            number,
        };
        let run = move || -> (E, S)
            ensures { HasServed (Answers (Calls E.entries E.is_full E.is_broken E.does) S.gives) session.entry.seat result }
        { session.run() };
        match self.scope.spawn_with(promise, run) {
            Ok(handle) => Place::Taken(handle),
            Err(refused) => {
                drop(connection.lock(self.rt).take());
                Place::Free((refused.value)())
            }
        }
    }

    // The place of a seat: with the session of the next connection, if one comes.
    fn place<E: Exec + Send + Drop + 's, S: SetSource + Send + Drop + 's>(
        &self,
        door: &mut Door,
        seat: (E, S),
        number: usize,
    ) -> Place<E, S>
        requires first { 0 < number }
        requires last { number ≤ length self.now.connections.now }
        ensures place { IsPlaceOf (Answers (Calls E.entries E.is_full E.is_broken E.does) S.gives) seat result }
        ensures door { Accepts door.old door.new number ⊎ (Refuses door.old door.new × (result ≡ Place.Free seat)) }
    {
        match door.accept(number) {
            Some(stream) => self.start(seat, stream, number),
            None => Place::Free(seat),
        }
    }

    // Takes a connection for each seat, and starts their sessions.
    pub fn place_all<E: Exec + Send + Drop + 's, S: SetSource + Send + Drop + 's>(
        &self,
        door: &mut Door,
        seats: Vec<(E, S)>,
        mut places: Vec<Place<E, S>>,
    ) -> Vec<Place<E, S>>
        requires empty { places.items ≡ [] }
        requires room { vec_len seats ≤ vec_capacity places }
        requires connections { length self.now.connections.now ≡ vec_len seats }
        requires first { door.old.accepted ≡ 0 }
        ensures places { AllZip (IsPlaceOf (Answers (Calls E.entries E.is_full E.is_broken E.does) S.gives))
            seats.items result.items }
        ensures left { AreLeft seats.items result.items door.new.accepted }
        ensures shut { door.new.accepted < length seats.items → door.new.has_failed ≡ true }
    {
        for seat in seats {
            let number = places.len() + 1;
            places.push_reserved(self.place(door, seat, number));
        }
        places
    }

    // Takes so many further connections, for which there is no seat. Each is closed at once, which is told.
    pub fn turn_away(&self, door: &mut Door, more: usize)
        ensures { TurnsAway door.old door.new more }
    {
        for _ in 0..more {
            let number = door.accepted.saturating_add(1);
            let Some(stream) = door.accept(number) else {
                return;
            };
            drop(stream);
            self.faults
                .lock(self.rt)
                .tell(number, ConnectionFault::NoSeat);
        }
    }
}
