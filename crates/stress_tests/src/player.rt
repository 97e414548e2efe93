//! Sessions on threads of their own.

use crate::drawn::LINES;
use crate::text::{Rest, request_of};
use crate::told::Told;
use mgn_ledger::{Image, Pass};
use mgn_machine::Request;
use mgn_service::{Service, Through};
use mgn_slots::SlotNames;
use mgn_table::TableName;
use std::alloc::Global;
use std::sync::Wait;
use std::thread;
use std::thread::Threads;

/// What is done on a thread of its own.
pub(crate) trait Play {
    /// Does it.
    fn play(&mut self);
}

/// Has all players play at the same time, each on a thread of its own.
pub(crate) fn play_all<R: Threads + Sync, P: Play + Send>(rt: &R, players: &mut [P]) {
    let threads = players.len().max(1);
    thread::for_each_mut(rt, players, threads, &|_place, player| player.play());
}

/// A session of a service, and what is left of its lines.
#[derive(Drop)]
pub(crate) struct Player<'s, 't, 'r, 'a, R: Wait, T: Image, J: TableName + SlotNames> {
    pub(crate) alloc: Global,
    pub(crate) rt: &'r R,
    pub(crate) service: &'s Service<'a, T, J>,
    pub(crate) pass: Pass<'a, T, J>,
    pub(crate) lines: Rest<'t>,
    pub(crate) told: Told,
}

impl<'s, 't, 'r, 'a, R: Wait, T: Image, J: TableName + SlotNames> Player<'s, 't, 'r, 'a, R, T, J> {
    // A line that asks for nothing is answered nothing, which the count of the entries shows.
    fn ask(&mut self, line: &[u8]) {
        let Some(request) = request_of(self.alloc, line) else {
            return;
        };
        let pass = &mut self.pass;
        let answer = match request {
            Request::Do(command) => self.service.exec(self.rt, pass, &Through, &command),
            Request::Switch(set) => self.service.switch_alone(self.rt, pass, &Through, set),
        };
        self.told.hear(answer);
    }

    /// Asks the next lines.
    pub(crate) fn ask_next(&mut self, count: u64) {
        for _ in 0..count {
            if let Some(line) = self.lines.next_line() {
                self.ask(line);
            }
        }
    }
}

impl<'s, 't, 'r, 'a, R: Wait, T: Image, J: TableName + SlotNames> Play
    for Player<'s, 't, 'r, 'a, R, T, J> {
    fn play(&mut self) {
        self.ask_next(LINES);
    }
}
