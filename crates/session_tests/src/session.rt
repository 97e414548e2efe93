//! Sessions over devices in memory: whole, in pieces, and torn.
ghost use Rattle.std.specs.Prelude.{◌≡◌, ◌++◌, ◌∷◌, [], OnOk, OnErr, false};
ghost use Rattle.mgn_machine.specs.declared.request.Recorded.TheVariants.{Asked};
ghost use Rattle.mgn_machine.specs.History.{item};
ghost use Rattle.mgn_session.specs.Device.{is_dirty};

use mgn_machine::{Answer, Command, Item, Recorded, Refusal, Reply};
use mgn_params::ParamSet;
use mgn_session::{Conversation, Counted, Exec, NoFiles, SessionFault, run_lines};
use mgn_wire::LineReply;
use std::alloc::{AllocError, Global};
use std::cell::Cell;
use std::io;
use std::io::{ErrorKind, Read, Write};

// Answers each command with its number, and an ASK with a refusal. It has no room for a set, and is closed for a TOTAL.
#[derive(Drop)]
struct Listed {
    items: Vec<Item>,
}

impl Listed {
    fn new(alloc: Global) -> Listed {
        Listed {
            items: Vec::new(alloc),
        }
    }

    fn keep(&mut self, place: u64, command: &Command, reply: Reply) -> Result<(), AllocError>
        ensures ok { OnOk result (self.new.items.items ≡ self.old.items.items ++ item place (Asked command.now) reply ∷ []) }
        ensures err { OnErr result (self.new.items.items ≡ self.old.items.items) }
    {
        self.items.push(Item {
            place,
            request: Recorded::Asked(*command),
            reply,
        })?;
        Ok(())
    }
}

impl Exec for Listed {
    ghost entries = { λ listed. listed.items.items };

    ghost is_full = { λ _. Unit {0} };

    ghost is_broken = { λ _. Unit {0} };

    ghost does = { λ _ _ _ _. Unit {0} };

    fn exec(&mut self, command: &Command) -> Answer {
        let reply = match command {
            Command::Ask(_) => Reply::Refused(Refusal::NoAccount),
            Command::Total(_) => return Answer::refused(Refusal::Broken),
            _ => Reply::Done,
        };
        let place = (self.items.len() as u64).saturating_add(1);
        let Ok(kept) = reply.copy() else {
            return Answer::refused(Refusal::Memory);
        };
        match self.keep(place, command, kept) {
            Ok(()) => Answer {
                place: Some(place),
                reply,
            },
            Err(_) => Answer::refused(Refusal::Memory),
        }
    }

    fn switch(&mut self, _set: ParamSet) -> Answer {
        Answer::refused(Refusal::Full)
    }
}

// Gives a text in pieces of a few bytes, and then fails or ends.
#[derive(Drop)]
struct Pieces<'a> {
    left: &'a [u8],
    size: usize,
    fails: bool,
}

impl Read for Pieces<'_> {
    fn read(&mut self, buf: &mut [u8]) -> io::Result<usize> {
        if self.left.is_empty() && self.fails {
            return Err(io::Error::from(ErrorKind::Other));
        }
        let size = self.size.min(self.left.len()).min(buf.len());
        buf[..size].copy_from_slice(&self.left[..size]);
        self.left = &self.left[size..];
        Ok(size)
    }
}

// Takes a few bytes at a time, and fails once it has room for no more.
#[derive(Drop)]
struct Narrow {
    taken: Vec<u8>,
    size: usize,
    room: usize,
}

impl Write for Narrow {
    fn write(&mut self, buf: &[u8]) -> io::Result<usize> {
        let size = self.size.min(self.room).min(buf.len());
        if size == 0 {
            return Err(io::Error::from(ErrorKind::Other));
        }
        self.taken.extend_from_slice(&buf[..size])?;
        self.room -= size;
        Ok(size)
    }

    fn flush(&mut self) -> io::Result<()> {
        Ok(())
    }
}

const SCRIPT: &[u8] =
    b"ORIGIN CUST GROSS\nask\nOPEN A1 CUST\nTRADE A1 0 AAA1 2 0\nASK A1\nTOTAL CUST\nASK A1";

const REPLIES: &[u8] = b"OK 1\nERR 10 SYNTAX\nOK 2\nERR 12 RANGE\nERR 3 20 NOACCT\nERR 92 BROKEN\n";

// Runs a session in pieces: how it ends, how often the reader and the writer failed, and what was written.
fn run(
    alloc: Global,
    script: &[u8],
    size: usize,
    fails: bool,
    room: usize,
) -> (Result<u64, SessionFault>, u64, u64, Vec<u8>) {
    let reader = Counted::new(Pieces {
        left: script,
        size,
        fails,
    });
    let writer = Counted::new(Narrow {
        taken: Vec::new(alloc),
        size,
        room,
    });
    let mut talk = Conversation::new(alloc, reader, writer);
    let mut exec = Listed::new(alloc);
    let ended = run_lines(alloc, &mut talk, &mut exec, &mut NoFiles);
    let read_failed = talk.failed_reads();
    let write_failed = talk.failed_writes();
    let (_, writer) = talk.into_parts();
    (ended, read_failed, write_failed, writer.into_inner().taken)
}

#[test]
fn answers_lines_in_pieces(rt: HostRuntime) {
    for size in [1, 2, 3, 7, 19, 100] {
        let (ended, read_failed, write_failed, taken) = run(rt.alloc(), SCRIPT, size, false, 1000);
        assert!(rt; matches!(&ended, Ok(6)), "at {size}");
        assert!(rt; read_failed == 0 && write_failed == 0);
        assert!(rt; taken.as_slice() == REPLIES, "at {size}");
    }
}

#[test]
fn stops_at_faults(rt: HostRuntime) {
    let (ended, read_failed, write_failed, taken) = run(rt.alloc(), SCRIPT, 7, true, 1000);
    assert!(rt; matches!(&ended, Err(SessionFault::Read)));
    assert!(rt; read_failed == 1 && write_failed == 0);
    assert!(rt; taken.as_slice() == REPLIES);
    let (ended, read_failed, write_failed, taken) = run(rt.alloc(), SCRIPT, 7, false, 9);
    assert!(rt; matches!(&ended, Err(SessionFault::Write)));
    assert!(rt; read_failed == 0 && write_failed == 1);
    assert!(rt; taken.as_slice() == b"OK 1\nERR ".as_slice());
}

// Gives a line once the reply to the line before was shown, and fails where it is asked for more before that.
#[derive(Drop)]
struct Patient<'a> {
    left: &'a [u8],
    given: usize,
    shown: &'a Cell<usize>,
}

impl Read for Patient<'_> {
    fn read(&mut self, buf: &mut [u8]) -> io::Result<usize> {
        if self.given > self.shown.get() {
            return Err(io::Error::from(ErrorKind::Other));
        }
        let size = match self.left.iter().position(|byte| *byte == b'\n') {
            Some(end) => (end + 1).min(buf.len()),
            None => self.left.len().min(buf.len()),
        };
        buf[..size].copy_from_slice(&self.left[..size]);
        self.left = &self.left[size..];
        self.given = self.given.saturating_add(1);
        Ok(size)
    }
}

// Shows what was flushed, and nothing else.
#[derive(Drop)]
struct Shown<'a> {
    held: Vec<u8>,
    text: Vec<u8>,
    replies: &'a Cell<usize>,
}

impl Write for Shown<'_> {
    fn write(&mut self, buf: &[u8]) -> io::Result<usize> {
        self.held.extend_from_slice(buf)?;
        Ok(buf.len())
    }

    fn flush(&mut self) -> io::Result<()> {
        let ends = self.held.iter().filter(|byte| **byte == b'\n').count();
        self.text.extend_from_slice(self.held.as_slice())?;
        self.held.clear();
        self.replies.set(self.replies.get().saturating_add(ends));
        Ok(())
    }
}

#[test]
fn replies_before_it_asks_for_more(rt: HostRuntime) {
    let replies = Cell::new(0);
    let reader = Counted::new(Patient {
        left: SCRIPT,
        given: 0,
        shown: &replies,
    });
    let writer = Counted::new(Shown {
        held: Vec::new(rt.alloc()),
        text: Vec::new(rt.alloc()),
        replies: &replies,
    });
    let mut talk = Conversation::new(rt.alloc(), reader, writer);
    let mut exec = Listed::new(rt.alloc());
    let ended = run_lines(rt.alloc(), &mut talk, &mut exec, &mut NoFiles);
    let (_, writer) = talk.into_parts();
    // The last line has no end, and so no reply: the reader refuses to go on after it.
    assert!(rt; matches!(&ended, Err(SessionFault::Read)));
    assert!(rt; writer.into_inner().text.as_slice() == REPLIES);
}

#[test]
fn a_conversation_is_read_and_answered(rt: HostRuntime) {
    let replies = Cell::new(0);
    let writer = Counted::new(Shown {
        held: Vec::new(rt.alloc()),
        text: Vec::new(rt.alloc()),
        replies: &replies,
    });
    let mut talk = Conversation::new(rt.alloc(), Counted::new(b"a\nb".as_slice()), writer);
    let mut buf = [0; 8];
    assert!(rt; talk.read(&mut buf) == Ok(3));
    assert!(rt; talk.reserve().is_ok());
    assert!(rt; talk.owed() == 1);
    assert!(rt; talk.reply(&LineReply::NoSet).is_ok());
    assert!(rt; replies.get() == 0);
    let sent = talk.send();
    assert!(rt; sent.is_ok() && replies.get() == 1 && talk.owed() == 0);
    if sent.is_err() {
        return;
    }
    assert!(rt; talk.read(&mut buf) == Ok(0));
}

// Fails at one call, and works before it and after it.
#[derive(Drop)]
struct Faltering<'a> {
    left: &'a [u8],
    taken: Vec<u8>,
    fails_at: usize,
    calls: usize,
}

impl Faltering<'_> {
    fn call(&mut self) -> io::Result<()> {
        let fails = self.calls == self.fails_at;
        self.calls = self.calls.saturating_add(1);
        if fails {
            return Err(io::Error::from(ErrorKind::Interrupted));
        }
        Ok(())
    }
}

impl Read for Faltering<'_> {
    fn read(&mut self, buf: &mut [u8]) -> io::Result<usize> {
        self.call()?;
        let size = self.left.len().min(buf.len()).min(20);
        buf[..size].copy_from_slice(&self.left[..size]);
        self.left = &self.left[size..];
        Ok(size)
    }
}

impl Write for Faltering<'_> {
    fn write(&mut self, buf: &[u8]) -> io::Result<usize> {
        self.call()?;
        self.taken.extend_from_slice(buf)?;
        Ok(buf.len())
    }

    fn flush(&mut self) -> io::Result<()> {
        self.call()
    }
}

fn falter<'a>(alloc: Global, fails_at: usize) -> Counted<Faltering<'a>>
    ensures { is_dirty result ≡ false }
{
    Counted::new(Faltering {
        left: SCRIPT,
        taken: Vec::new(alloc),
        fails_at,
        calls: 0,
    })
}

// The fault, the failures, the calls of the reader and the writer, and what was written.
fn run_faltering(
    alloc: Global,
    read: usize,
    write: usize,
) -> (Result<u64, SessionFault>, [u64; 2], [usize; 2], Vec<u8>) {
    let mut talk = Conversation::new(alloc, falter(alloc, read), falter(alloc, write));
    let mut exec = Listed::new(alloc);
    let ended = run_lines(alloc, &mut talk, &mut exec, &mut NoFiles);
    let failed = [talk.failed_reads(), talk.failed_writes()];
    let (reader, writer) = talk.into_parts();
    let reader = reader.into_inner();
    let writer = writer.into_inner();
    (ended, failed, [reader.calls, writer.calls], writer.taken)
}

#[test]
fn what_fails_once_is_not_tried_again(rt: HostRuntime) {
    // The second read. The first ends one line, for which there is a write and a flush.
    let (ended, failed, calls, taken) = run_faltering(rt.alloc(), 1, 99);
    assert!(rt; ended == Err(SessionFault::Read));
    assert!(rt; failed == [1, 0] && calls == [2, 2]);
    assert!(rt; taken.as_slice() == b"OK 1\n".as_slice());
    // The first write.
    let (ended, failed, calls, taken) = run_faltering(rt.alloc(), 99, 0);
    assert!(rt; ended == Err(SessionFault::Write));
    assert!(rt; failed == [0, 1] && calls == [1, 1]);
    assert!(rt; taken.is_empty());
    // The first flush.
    let (ended, failed, calls, taken) = run_faltering(rt.alloc(), 99, 1);
    assert!(rt; ended == Err(SessionFault::Write));
    assert!(rt; failed == [0, 1] && calls == [1, 2]);
    assert!(rt; taken.as_slice() == b"OK 1\n".as_slice());
}

#[test]
fn a_chunk_is_taken_line_by_line(rt: HostRuntime) {
    // The first chunk of 16 bytes ends within a line, which gets no reply before it ends too.
    let (ended, _, _, taken) = run(rt.alloc(), b"OPEN A1 CUST\nASK", 16, false, 1000);
    assert!(rt; ended == Ok(1));
    assert!(rt; taken.as_slice() == b"OK 1\n".as_slice());
    let (ended, _, _, taken) = run(rt.alloc(), b"OPEN A1 CUST\nASK A1\n", 16, false, 1000);
    assert!(rt; ended == Ok(2));
    assert!(rt; taken.as_slice() == b"OK 1\nERR 2 20 NOACCT\n".as_slice());
}
