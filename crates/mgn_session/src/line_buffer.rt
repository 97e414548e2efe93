ghost use Rattle.std.specs.Prelude.{◌≡◌, ◌⊎◌, ◌+◌, ◌<◌, ◌≤◌, ◌∷◌, [], ◌++◌, ℕ, List, take, length, Ok, IfOk, IfErr, OnOk, OnErr, false};
ghost use Rattle.mgn_wire.specs.Line.{line_of};
ghost use Rattle.mgn_session.specs.Conversation.{ConversationView, KeepsDevices, line_ends};
ghost use Rattle.mgn_session.specs.Session.{Answers, Calls, Switches, has_end};
ghost use Rattle.mgn_session.specs.SessionInside.{GoesWithout, IsCutOff, IsUnderWay, whole_line};

use crate::conversation::Conversation;
use crate::ends::find_end;
use crate::exec::Exec;
use crate::fault::SessionFault;
use crate::source::{SetSource, SourceFault};
use mgn_ids::SetName;
use mgn_machine::{Answer, Refusal};
use mgn_setfile::{Cause, read_set};
use mgn_wire::{Line, LineFault, LineReply, Memory, read_line};
use std::alloc::Global;
use std::io::{Read, Write};

// One byte more than a line may have, so that a longer line is known by its front.
const LONGEST: usize = 257;

/// The most lines that a session answers.
pub(crate) const MAX_LINES: u64 = 1_000_000;

// Has the executor answer the switch to the set of a file.
fn switch<E: Exec>(alloc: Global, exec: &mut E, file: &[u8]) -> LineReply
    ensures { Switches (Calls E.entries E.is_full E.is_broken E.does) exec.old (Ok file.now) result exec.new }
{
    match read_set(alloc, file) {
        Ok(set) => LineReply::Answered(exec.switch(set)),
        Err(fault) => match fault.cause {
            Cause::Memory => LineReply::Answered(Answer::refused(Refusal::Memory)),
            _ => LineReply::BadSet(fault.number),
        },
    }
}

// Has the executor answer the switch to a set, if the source gives its file. Out of line, so that no command has room for a
// set in its way.
#[inline(never)]
fn answer_switch<E: Exec, S: SetSource>(
    alloc: Global,
    exec: &mut E,
    source: &mut S,
    name: &SetName,
) -> LineReply
    ensures { Answers (Calls E.entries E.is_full E.is_broken E.does) S.gives
        (exec.old, source.old) (Ok (Line.Switch name.now)) result (exec.new, source.new) }
{
    match source.fetch(name) {
        Ok(file) => switch(alloc, exec, file.as_slice()),
        Err(SourceFault::Memory) => LineReply::Answered(Answer::refused(Refusal::Memory)),
        Err(_) => LineReply::NoSet,
    }
}

fn answer_line<E: Exec, S: SetSource>(
    alloc: Global,
    exec: &mut E,
    source: &mut S,
    read: &Result<Line, LineFault>,
) -> LineReply
    ensures { Answers (Calls E.entries E.is_full E.is_broken E.does) S.gives
        (exec.old, source.old) read.now result (exec.new, source.new) }
{
    match read {
        Ok(Line::Do(command)) => LineReply::Answered(exec.exec(command)),
        Ok(Line::Switch(name)) => answer_switch(alloc, exec, source, name),
        Err(fault) => LineReply::NotRead(*fault),
    }
}

// Adds to the front of a line as much as can matter of what follows.
fn keep(line: &mut Vec<u8>, piece: &[u8]) -> Result<(), Memory>
    ensures { OnOk result (take 257 line.new.items ≡ take 257 (line.old.items ++ piece.now)) }
{
    let room = LONGEST.saturating_sub(line.len()).min(piece.len());
    match line.extend_from_slice(&piece[..room]) {
        Ok(()) => Ok(()),
        Err(_) => Err(Memory),
    }
}

// Adds the end of a line to its front, unless all of it is at hand.
fn complete(line: &mut Vec<u8>, last: &[u8]) -> Result<(), Memory>
    ensures { OnOk result (line_of (whole_line line.new.items last.now) ≡ line_of (line.old.items ++ last.now)) }
{
    if line.is_empty() {
        return Ok(());
    }
    keep(line, last)
}

// The line that ends with `last`, of which `line` has the front.
fn whole_line<'a>(line: &'a [u8], last: &'a [u8]) -> &'a [u8]
    ensures { result.now ≡ whole_line line.now last.now }
{
    if line.is_empty() { last } else { line }
}

/// The front of the line at hand, and the number of lines answered.
#[derive(Drop)]
pub(crate) struct LineBuffer {
    pub line: Vec<u8>,
    pub lines: u64,
}

impl LineBuffer {
    pub fn new(alloc: Global) -> LineBuffer
        ensures line { result.line.items ≡ [] }
        ensures lines { result.lines ≡ 0 }
    {
        LineBuffer {
            line: Vec::new(alloc),
            lines: 0,
        }
    }

    // Answers the line at hand, which ends with `last`. Room for its reply is made before its command changes anything.
    fn end_line<R: Read, W: Write, E: Exec, S: SetSource>(
        &mut self,
        talk: &mut Conversation<R, W>,
        exec: &mut E,
        source: &mut S,
        last: &[u8],
    ) -> Result<(), Memory>
        requires lines { self.old.lines < MAX_LINES }
        requires owed { 0 < talk.old.owed }
        ensures ok { (before : ConversationView) (first : E × S) (rest : List ℕ) (size : ℕ) → has_end last.now ≡ false →
            IsUnderWay (Answers (Calls E.entries E.is_full E.is_broken E.does) S.gives) before talk.old first (exec.old, source.old)
            ((last.now ++ 10 ∷ []) ++ rest) size self.old.lines self.old.line.items →
            OnOk result (IsUnderWay (Answers (Calls E.entries E.is_full E.is_broken E.does) S.gives)
            before talk.new first (exec.new, source.new)
            rest size self.new.lines self.new.line.items) }
        ensures err { (before : ConversationView) (first : E × S) (rest : List ℕ) (size : ℕ)
            → has_end last.now ≡ false →
            IsUnderWay (Answers (Calls E.entries E.is_full E.is_broken E.does) S.gives) before talk.old first (exec.old, source.old)
            ((last.now ++ 10 ∷ []) ++ rest) size self.old.lines self.old.line.items →
            OnErr result (IsCutOff (Answers (Calls E.entries E.is_full E.is_broken E.does) S.gives)
            before talk.new first (exec.new, source.new)) }
        ensures room { OnErr result (GoesWithout (Answers (Calls E.entries E.is_full E.is_broken E.does) S.gives)
            (exec.old, source.old) (line_of (self.old.line.items ++ last.now)) (exec.new, source.new)) }
        ensures count { OnOk result (self.new.lines ≡ self.old.lines + 1) }
        ensures owed { OnOk result (talk.new.owed + 1 ≡ talk.old.owed) }
        ensures devices { KeepsDevices talk.old talk.new }
    {
        talk.reserve()?;
        complete(&mut self.line, last)?;
        let whole = whole_line(&self.line, last);
        let reply = answer_line(*self.line.allocator(), exec, source, &read_line(whole));
        self.line.clear();
        talk.reply(&reply)?;
        self.lines += 1;
        Ok(())
    }

    /// Takes the bytes of a chunk, and answers each line that ends in it. `Lines` where one comes after the last line
    /// that may be, and `Memory`.
    pub fn take_chunk<R: Read, W: Write, E: Exec, S: SetSource>(
        &mut self,
        talk: &mut Conversation<R, W>,
        exec: &mut E,
        source: &mut S,
        chunk: &[u8],
    ) -> Result<(), SessionFault>
        requires lines { self.old.lines ≤ MAX_LINES }
        requires owed { talk.old.owed ≡ line_ends chunk.now }
        ensures ok { (before : ConversationView) (first : E × S) (size : ℕ) →
            IsUnderWay (Answers (Calls E.entries E.is_full E.is_broken E.does) S.gives) before talk.old first (exec.old, source.old)
            chunk.now size self.old.lines self.old.line.items →
            OnOk result (IsUnderWay (Answers (Calls E.entries E.is_full E.is_broken E.does) S.gives)
            before talk.new first (exec.new, source.new)
            [] size self.new.lines self.new.line.items) }
        ensures err { (before : ConversationView) (first : E × S) (size : ℕ) →
            IsUnderWay (Answers (Calls E.entries E.is_full E.is_broken E.does) S.gives) before talk.old first (exec.old, source.old)
            chunk.now size self.old.lines self.old.line.items →
            OnErr result (IsCutOff (Answers (Calls E.entries E.is_full E.is_broken E.does) S.gives)
            before talk.new first (exec.new, source.new)) }
        ensures many { (before : ConversationView) (first : E × S) (size : ℕ) →
            IsUnderWay (Answers (Calls E.entries E.is_full E.is_broken E.does) S.gives) before talk.old first (exec.old, source.old)
            chunk.now size self.old.lines self.old.line.items →
            IfErr result (λ fault. fault ≡ SessionFault.Lines → (rest : List ℕ) × (0 < length rest)
            × IsUnderWay (Answers (Calls E.entries E.is_full E.is_broken E.does) S.gives)
            before talk.new first (exec.new, source.new)
            rest size MAX_LINES self.new.line.items) }
        ensures fault { IfErr result (λ fault. (fault ≡ SessionFault.Memory) ⊎ (fault ≡ SessionFault.Lines)) }
        ensures lines { OnOk result (self.new.lines ≤ MAX_LINES) }
        ensures owed { OnOk result (talk.new.owed ≡ 0) }
        ensures devices { KeepsDevices talk.old talk.new }
    {
        let mut at = 0;
        while at < chunk.len() {
            if self.lines >= MAX_LINES {
                return Err(SessionFault::Lines);
            }
            let left = &chunk[at..];
            match find_end(left) {
                Some(end) => {
                    self.end_line(talk, exec, source, &left[..end])?;
                    at += end + 1;
                }
                None => {
                    keep(&mut self.line, left)?;
                    return Ok(());
                }
            }
        }
        Ok(())
    }
}
