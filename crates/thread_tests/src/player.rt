//! Sessions that do what they are told, each on a thread of its own.

use crate::meeting::Meeting;
use mgn_ledger::{Image, Pass};
use mgn_machine::Answer;
use mgn_seat::Switches;
use mgn_service::Service;
use mgn_setfile::read_set;
use mgn_slots::SlotNames;
use mgn_table::TableName;
use mgn_wire::{Line, LineReply, read_line, reply_text};
use std::alloc::Global;
use std::sync::Wait;
use std::thread;
use std::thread::Threads;
use std::time::Clock;
use worked_sets::two;

/// What a session does next.
#[derive(Clone, Copy)]
pub(crate) enum Deed {
    /// Makes the call of a line.
    Call(&'static str),
    /// Switches to the set with twice the prices' moves of the first.
    Switch,
    /// Waits until so many have come to the meeting.
    Await(u64),
    /// Comes to the meeting.
    Come,
    /// Switches so many times, each once the first session has come again, and comes after each.
    SwitchEachTime(u64),
}

/// What is done on a thread of its own.
pub(crate) trait Play {
    /// Does it.
    fn play(&mut self);
}

/// Has all players play at the same time, each on a thread of its own.
pub(crate) fn play_all<R: Threads + Sync, P: Play + Send>(rt: &R, players: &mut [P]) {
    let threads = players.len().max(1);
    thread::for_each_mut(rt, players, threads, &|_place, player| player.play());
}

/// A session of a service, what it does, and the text of all that it was answered.
#[derive(Drop)]
pub(crate) struct Player<
    's,
    'm,
    'r,
    'w,
    'a,
    R: Wait,
    T: Image,
    J: TableName + SlotNames,
    W: Switches,
> {
    pub(crate) alloc: Global,
    pub(crate) service: &'s Service<'a, T, J>,
    pub(crate) meeting: &'m Meeting<'r, R>,
    pub(crate) workers: &'w W,
    pub(crate) pass: Pass<'a, T, J>,
    pub(crate) deeds: &'static [Deed],
    pub(crate) told: Vec<u8>,
}

impl<'s, 'm, 'r, 'w, 'a, R: Wait + Clock, T: Image, J: TableName + SlotNames, W: Switches> Player<
    's,
    'm,
    'r,
    'w,
    'a,
    R,
    T,
    J,
    W,
> {
    // A line that is no command, and want of memory, leave no text, which the tests compare.
    fn act(&mut self, deed: Deed) {
        match deed {
            Deed::Await(wanted) => self.meeting.wait_for(wanted),
            Deed::Come => {
                let _ = self.meeting.come();
            }
            Deed::SwitchEachTime(times) => {
                for time in 0..times {
                    self.meeting
                        .wait_for(time.saturating_mul(2).saturating_add(1));
                    self.switch();
                    let _ = self.meeting.come();
                }
            }
            Deed::Call(line) => {
                if let Ok(Line::Do(command)) = read_line(line.as_bytes()) {
                    let meeting = self.meeting;
                    let pass = &mut self.pass;
                    let answer = self.service.exec(meeting.rt(), pass, meeting, &command);
                    self.hear(answer);
                }
            }
            Deed::Switch => self.switch(),
        }
    }

    fn switch(&mut self) {
        if let Ok(set) = read_set(self.alloc, two().as_bytes()) {
            let pass = &mut self.pass;
            let meeting = self.meeting;
            let answer = self
                .workers
                .switch(meeting.rt(), self.service, pass, meeting, set);
            self.hear(answer);
        }
    }

    fn hear(&mut self, answer: Answer) {
        let _ = reply_text(&LineReply::Answered(answer), &mut self.told);
    }
}

impl<'s, 'm, 'r, 'w, 'a, R: Wait + Clock, T: Image, J: TableName + SlotNames, W: Switches> Play
    for Player<'s, 'm, 'r, 'w, 'a, R, T, J, W> {
    fn play(&mut self) {
        for deed in self.deeds {
            self.act(*deed);
        }
    }
}
