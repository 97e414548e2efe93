ghost use Rattle.std.specs.Prelude.{◌≡◌, ◌<◌, ◌≤◌, ◌++◌, [], ℕ, drop, length, take, IfOk, IfErr, IsOk, OnOk, OnErr, false};
ghost use Rattle.std.specs.Io.{ReadsAtMost};
ghost use Rattle.std.specs.Io.KnownBytes.{Appends};
ghost use Rattle.mgn_wire.specs.Text.{lines_after, text_of};
ghost use Rattle.mgn_session.specs.Device.{device_of, failed_of, has_ended, is_dirty, one_more};
ghost use Rattle.mgn_session.specs.Conversation.{HasFailedToRead, HasFailedToSend, HasRead, HasReplied, HasSent, IsQuiet, seen, with_room};

use crate::counted::Counted;
use crate::ends::count_ends;
use crate::fault::SessionFault;
use mgn_wire::{LONGEST_REPLY, LineReply, Memory, reply_text};
use std::alloc::Global;
use std::io::{Read, Write};
use std::marker::Model;

/// A reader of lines and the writer of their replies. It is asked for more only once every line read has its reply, and
/// every reply is written and flushed: so a client that waits for a reply before it sends its next line gets it.
#[derive(Drop)]
pub struct Conversation<R: Read, W: Write> {
    reader: Counted<R>,
    writer: Counted<W>,
    // The replies that wait to be written.
    waiting: Vec<u8>,
    // How many lines were read that have no reply.
    owed: usize,
}

impl<R: Read, W: Write> Model for Conversation<R, W> {
    ghost use Rattle.std.specs.Prelude.{◌-◌, length, vec_capacity};
    ghost use Rattle.mgn_session.specs.Conversation.{ConversationView, seen};

    ghost Value = { ConversationView };

    ghost view = { λ talk. seen R.remaining W.contents talk.reader talk.writer talk.waiting.items talk.owed
        (vec_capacity talk.waiting - length talk.waiting.items) };
}

// Writes the text, and gives how much of it was taken.
fn put<W: Write>(writer: &mut Counted<W>, text: &[u8]) -> (usize, Result<(), SessionFault>)
    ensures within { result.0 ≤ length text.now }
    ensures wrote { Appends (W.contents (device_of writer.old)) (W.contents (device_of writer.new))
        (take result.0 text.now) }
    ensures whole { OnOk result.1 (result.0 ≡ length text.now) }
    ensures fault { IfErr result.1 (λ fault. fault ≡ SessionFault.Write) }
    ensures ok { OnOk result.1 (failed_of writer.new ≡ failed_of writer.old) }
    ensures err { OnErr result.1 (failed_of writer.new ≡ one_more (failed_of writer.old)) }
    ensures clean { OnOk result.1 (is_dirty writer.new ≡ false) }
{
    let mut at = 0;
    while at < text.len() {
        match writer.write(&text[at..]) {
            Ok(0) => return (at, Err(SessionFault::Write)),
            Ok(taken) => at += taken,
            Err(_) => return (at, Err(SessionFault::Write)),
        }
    }
    if writer.flush().is_err() {
        return (at, Err(SessionFault::Write));
    }
    (at, Ok(()))
}

fn remove_front(bytes: &mut Vec<u8>, count: usize)
    requires { count ≤ length bytes.old.items }
    ensures { bytes.new.items ≡ drop count bytes.old.items }
{
    bytes.drain(..count);
}

impl<R: Read, W: Write> Conversation<R, W> {
    /// A conversation of which nothing was read yet.
    pub fn new(alloc: Global, reader: Counted<R>, writer: Counted<W>) -> Conversation<R, W>
        ensures { result ≡ seen R.remaining W.contents reader writer [] 0 0 }
    {
        Conversation {
            reader,
            writer,
            waiting: Vec::new(alloc),
            owed: 0,
        }
    }

    /// How many lines were read that have no reply.
    pub fn owed(&self) -> usize
        ensures { result ≡ self.now.owed }
    {
        self.owed
    }

    /// How many reads failed.
    pub fn failed_reads(&self) -> u64
        ensures { result ≡ self.now.failed_reads }
    {
        self.reader.failed()
    }

    /// How many writes and flushes failed.
    pub fn failed_writes(&self) -> u64
        ensures { result ≡ self.now.failed_writes }
    {
        self.writer.failed()
    }

    /// The reader and the writer. Replies that wait are lost.
    pub fn into_parts(self) -> (Counted<R>, Counted<W>)
        ensures { self ≡ seen R.remaining W.contents result.0 result.1 self.waiting self.owed self.room }
    {
        let Conversation {
            reader,
            writer,
            waiting: _,
            owed: _,
        } = self;
        (reader, writer)
    }

    /// Reads into `buf`, once every line read is answered and every reply written and flushed. Each line that ends in
    /// the bytes read is then owed a reply. `Read` where the device fails.
    pub fn read(&mut self, buf: &mut [u8]) -> Result<usize, SessionFault>
        requires quiet { IsQuiet self.old }
        ensures bound { ReadsAtMost result buf.new }
        ensures ok { IfOk result (λ n. HasRead self.old self.new (length buf.new) (take n buf.new)) }
        ensures err { IfErr result (λ fault. (fault ≡ SessionFault.Read) × HasFailedToRead self.old self.new) }
    {
        let Ok(taken) = self.reader.read(buf) else {
            return Err(SessionFault::Read);
        };
        self.owed = count_ends(&buf[..taken]);
        Ok(taken)
    }

    /// Makes room for the line of a reply, so that a command whose reply would find no memory need not be carried out. The
    /// only error is that memory was refused; then nothing has changed.
    pub fn reserve(&mut self) -> Result<(), Memory>
        ensures ok { OnOk result (LONGEST_REPLY ≤ self.new.room) }
        ensures err { OnErr result (self.new ≡ self.old) }
        ensures kept { self.new ≡ with_room self.old self.new.room }
    {
        self.waiting.reserve(LONGEST_REPLY)?;
        Ok(())
    }

    /// Replies to a line that is owed a reply. The text waits to be sent. A reply of one line, as all are but a statement,
    /// finds memory where there is room for one.
    pub fn reply(&mut self, reply: &LineReply) -> Result<(), Memory>
        requires { 0 < self.old.owed }
        ensures ok { OnOk result (HasReplied self.old self.new (text_of reply.now)) }
        ensures err { OnErr result (self.new ≡ with_room self.old self.new.room) }
        ensures fits { lines_after reply.now ≡ [] → LONGEST_REPLY ≤ self.old.room → IsOk result }
    {
        reply_text(reply, &mut self.waiting)?;
        self.owed -= 1;
        Ok(())
    }

    /// Writes the replies that wait and flushes. `Write` where the device fails: what it did not take waits on.
    pub fn send(&mut self) -> Result<(), SessionFault>
        ensures ok { OnOk result (HasSent self.old self.new) }
        ensures err { IfErr result (λ fault. (fault ≡ SessionFault.Write) × HasFailedToSend self.old self.new) }
    {
        let (taken, outcome) = put(&mut self.writer, self.waiting.as_slice());
        match outcome {
            Ok(()) => self.waiting.clear(),
            Err(_) => remove_front(&mut self.waiting, taken),
        }
        outcome
    }
}
