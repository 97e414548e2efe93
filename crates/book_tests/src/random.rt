//! Long random sessions, whose scripts go by desks, beside a book that works out anew what its units require. Each run
//! draws the same lines.

mod lines;

use crate::script::{answered, text_of};
use crate::shelved::Shelved;
use lines::Lines;
use mgn_ids::SessionNo;
use mgn_machine::{Answer, Command, Refusal, Reply, Request};
use mgn_params::ParamSet;
use mgn_script::Plain;
use mgn_setfile::read_set;
use mgn_wire::{Line, LineReply, read_line, reply_text};
use std::alloc::Global;
use std::process::Abort;
use std::test::Fail;
use worked_sets::one;

const SESSIONS: u64 = 4;

const LINES: usize = 2_000;

// Three origins, one of them netted, with their accounts.
const FIRST: [&str; 10] = [
    "ORIGIN CUST GROSS",
    "ORIGIN FIRM GROSS",
    "ORIGIN HOUSE NET",
    "OPEN A1 CUST",
    "OPEN A2 CUST",
    "OPEN A3 CUST",
    "OPEN F1 FIRM",
    "OPEN F2 FIRM",
    "OPEN H1 HOUSE",
    "OPEN H2 HOUSE",
];

// Questions are answered when the day is over, and nothing else is.
const LAST: [&str; 5] = [
    "END",
    "SWITCH TWO",
    "HOLD A1 1 AAA1 1 0",
    "ASK A1",
    "STMT H1",
];

// How many requests of a kind were done, and how many there was no room for.
#[derive(Clone, Copy, Default, Debug)]
struct Counts {
    holds: u32,
    fills: u32,
    releases: u32,
    moves: u32,
    draws: u32,
    busts: u32,
    switches: u32,
    set_refusals: u32,
    without_room: u32,
}

fn add_one(count: &mut u32) {
    *count = count.saturating_add(1);
}

impl Counts {
    fn add_done(&mut self, command: &Command) {
        match command {
            Command::Hold(_) => add_one(&mut self.holds),
            Command::Fill(_) => add_one(&mut self.fills),
            Command::Release(_, _) => add_one(&mut self.releases),
            Command::Transfer(_) => add_one(&mut self.moves),
            Command::Draw(_, _, _) => add_one(&mut self.draws),
            Command::Bust(_, _) => add_one(&mut self.busts),
            _ => {}
        }
    }

    fn add(&mut self, line: &Line, reply: &Reply) {
        match reply {
            Reply::NewSet(_) => add_one(&mut self.switches),
            Reply::Refused(Refusal::Missing) => add_one(&mut self.set_refusals),
            Reply::Refused(Refusal::NoRoom) => add_one(&mut self.without_room),
            Reply::Done => {
                if let Line::Do(command) = line {
                    self.add_done(command);
                }
            }
            _ => {}
        }
    }

    // Whether each of them occurred often.
    fn are_many(&self) -> bool {
        let often = [
            self.holds,
            self.fills,
            self.releases,
            self.moves,
            self.draws,
            self.busts,
            self.switches,
            self.without_room,
        ];
        often.iter().all(|count| 50 <= *count) && 5 <= self.set_refusals
    }
}

// A session as it is written, with what a book that works everything out anew answers.
#[derive(Drop)]
struct Written {
    alloc: Global,
    text: Vec<u8>,
    book: Shelved,
    replies: Vec<u8>,
}

impl Written {
    fn new(alloc: Global, set: ParamSet) -> Result<Written, Fail> {
        let book = Shelved::new(alloc, set)?;
        Ok(Written {
            alloc,
            text: Vec::new(alloc),
            book,
            replies: Vec::new(alloc),
        })
    }

    fn commit(&mut self, request: Request) -> Result<Answer, Fail> {
        match self.book.commit(SessionNo::new(1), request) {
            Some(answer) => Ok(answer),
            None => Err(Fail::new("no memory")),
        }
    }

    // What a line is answered.
    fn answer(&mut self, line: &Line) -> Result<LineReply, Fail> {
        let name = match line {
            Line::Do(command) => {
                return Ok(LineReply::Answered(self.commit(Request::Do(*command))?));
            }
            Line::Switch(name) => name,
        };
        let Some(text) = text_of(name.as_bytes()) else {
            return Ok(LineReply::NoSet);
        };
        match read_set(self.alloc, text.as_bytes()) {
            Ok(set) => Ok(LineReply::Answered(self.commit(Request::Switch(set))?)),
            Err(fault) => Ok(LineReply::BadSet(fault.number)),
        }
    }

    // Writes a line, and what it is answered.
    fn put(&mut self, line: &str, counts: &mut Counts) -> Result<(), Fail> {
        self.text.extend_from_slice(line.as_bytes())?;
        self.text.push(b'\n')?;
        let reply = match read_line(line.as_bytes()) {
            Ok(read) => {
                let reply = self.answer(&read)?;
                if let LineReply::Answered(answer) = &reply {
                    counts.add(&read, &answer.reply);
                }
                reply
            }
            Err(fault) => LineReply::NotRead(fault),
        };
        Ok(reply_text(&reply, &mut self.replies)?)
    }

    fn put_all(&mut self, lines: &[&str], counts: &mut Counts) -> Result<(), Fail> {
        for line in lines {
            self.put(line, counts)?;
        }
        Ok(())
    }

    // Draws a line, and writes it.
    fn put_drawn(&mut self, lines: &mut Lines, counts: &mut Counts) -> Result<(), Fail> {
        let line = lines.draw(self.alloc)?;
        self.put(&line, counts)
    }

    // Writes the first lines, drawn ones, and the last.
    fn put_session(&mut self, lines: &mut Lines, counts: &mut Counts) -> Result<(), Fail> {
        self.put_all(&FIRST, counts)?;
        for _ in 0..LINES {
            self.put_drawn(lines, counts)?;
        }
        self.put_all(&LAST, counts)
    }
}

// Where two texts first differ, if they do.
pub(crate) fn first_difference(one: &[u8], other: &[u8]) -> Option<usize> {
    if one == other {
        return None;
    }
    let same = one.iter().zip(other.iter()).take_while(|(a, b)| a == b);
    Some(same.count())
}

// Whether a script of the session is answered by the same bytes.
fn check_session(rt: &impl Abort, alloc: Global, written: &Written) -> Result<(), Fail> {
    let mut plain = Plain::new(alloc, read_set(alloc, one().as_bytes())?)?;
    let (lines, replies) = answered(alloc, &mut plain, &written.text);
    assert!(rt; lines == Ok((FIRST.len() + LINES + LAST.len()) as u64));
    assert_eq!(rt; first_difference(&replies, &written.replies), None);
    assert_eq!(rt; plain.len(), written.book.len());
    Ok(())
}

// Writes a session of lines by the numbers of a stream, and answers it by a script.
fn check_stream(
    rt: &impl Abort,
    alloc: Global,
    written: &mut Written,
    stream: u64,
    counts: &mut Counts,
) -> Result<(), Fail> {
    let mut lines = Lines::new(stream);
    written.put_session(&mut lines, counts)?;
    check_session(rt, alloc, written)
}

// The same from a book under the first set on.
fn check_random(
    rt: &impl Abort,
    alloc: Global,
    stream: u64,
    counts: &mut Counts,
) -> Result<(), Fail> {
    let set = read_set(alloc, one().as_bytes())?;
    let mut written = Written::new(alloc, set)?;
    check_stream(rt, alloc, &mut written, stream, counts)
}

#[test]
fn random_scripts_are_answered_as_worked_out_anew(rt: HostRuntime) -> Result<(), Fail> {
    let mut counts = Counts::default();
    for stream in 0..SESSIONS {
        check_random(&rt, rt.alloc(), stream, &mut counts)?;
    }
    assert!(rt; counts.are_many(), "{counts:?}");
    Ok(())
}
