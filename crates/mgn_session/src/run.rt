ghost use Rattle.std.specs.Prelude.{◌≡◌, ◌≤◌, [], ℕ, length, IfOk, IfErr, OnOk, OnErr};
ghost use Rattle.mgn_session.specs.Conversation.{ConversationView, IsQuiet, line_ends};
ghost use Rattle.mgn_session.specs.Session.{Answers, BlamesDevices, Calls, HasAnswered, HasRunOut, HasStopped, HasTooMuch, IsCaughtUp};
ghost use Rattle.mgn_session.specs.SessionInside.{IsUnderWay};

use crate::conversation::Conversation;
use crate::exec::Exec;
use crate::fault::SessionFault;
use crate::line_buffer::{LineBuffer, MAX_LINES};
use crate::source::SetSource;
use std::alloc::Global;
use std::io::{Read, Write};

const MAX_BYTES: usize = 268_435_456;

const CHUNK: usize = 16_384;

// Answers the lines that end in a chunk and sends the replies, also those before a fault.
fn answer_chunk<R: Read, W: Write, E: Exec, S: SetSource>(
    lines: &mut LineBuffer,
    talk: &mut Conversation<R, W>,
    exec: &mut E,
    source: &mut S,
    chunk: &[u8],
) -> Result<(), SessionFault>
    requires lines { lines.old.lines ≤ MAX_LINES }
    requires owed { talk.old.owed ≡ line_ends chunk.now }
    ensures ok { (before : ConversationView) (first : E × S) (size : ℕ) →
        IsUnderWay (Answers (Calls E.entries E.is_full E.is_broken E.does) S.gives) before talk.old first (exec.old, source.old)
        chunk.now size lines.old.lines lines.old.line.items →
        OnOk result (IsUnderWay (Answers (Calls E.entries E.is_full E.is_broken E.does) S.gives)
        before talk.new first (exec.new, source.new)
        [] size lines.new.lines lines.new.line.items) }
    ensures err { (before : ConversationView) (first : E × S) (size : ℕ) →
        IsUnderWay (Answers (Calls E.entries E.is_full E.is_broken E.does) S.gives) before talk.old first (exec.old, source.old)
        chunk.now size lines.old.lines lines.old.line.items →
        OnErr result (HasStopped (Answers (Calls E.entries E.is_full E.is_broken E.does) S.gives)
        before talk.new first (exec.new, source.new)) }
    ensures many { (before : ConversationView) (first : E × S) (size : ℕ) →
        IsUnderWay (Answers (Calls E.entries E.is_full E.is_broken E.does) S.gives) before talk.old first (exec.old, source.old)
        chunk.now size lines.old.lines lines.old.line.items →
        IfErr result (λ fault. fault ≡ SessionFault.Lines →
        HasTooMuch (Answers (Calls E.entries E.is_full E.is_broken E.does) S.gives) before talk.new first (exec.new, source.new)) }
    ensures memory { (before : ConversationView) (first : E × S) (size : ℕ) →
        IsUnderWay (Answers (Calls E.entries E.is_full E.is_broken E.does) S.gives) before talk.old first (exec.old, source.old)
        chunk.now size lines.old.lines lines.old.line.items →
        IfErr result (λ fault. fault ≡ SessionFault.Memory →
        HasRunOut (Answers (Calls E.entries E.is_full E.is_broken E.does) S.gives) before talk.new first (exec.new, source.new)) }
    ensures read { IfErr result (λ fault. fault ≡ SessionFault.Read → ⊥) }
    ensures failures { BlamesDevices talk.old talk.new result }
    ensures lines { OnOk result (lines.new.lines ≤ MAX_LINES) }
    ensures quiet { OnOk result (IsQuiet talk.new) }
{
    let taken = lines.take_chunk(talk, exec, source, chunk);
    talk.send()?;
    taken
}

/// Answers the lines of a conversation, to the end of the input, and gives their number. Bytes after the last line feed
/// get no reply. The executor answers what a line asks for; the set of a `SWITCH` is read from the bytes that the source
/// gives, and where it gives none, or no set, the line is refused and the executor not called.
///
/// `Read` and `Write` come where that device fails, `Lines` at the next byte after 1,000,000 lines or 268,435,456 bytes
/// with all replies before it written, `Memory` where it cannot be had, with all replies to what was done written, but for the
/// last where it is a statement. At each fault the executor did what the lines of a prefix of the input ask for and nothing
/// else, and a prefix of the replies to them was written.
pub fn run_lines<R: Read, W: Write, E: Exec, S: SetSource>(
    alloc: Global,
    talk: &mut Conversation<R, W>,
    exec: &mut E,
    source: &mut S,
) -> Result<u64, SessionFault>
    requires { IsQuiet talk.old }
    ensures ok { IfOk result (λ n. HasAnswered (Answers (Calls E.entries E.is_full E.is_broken E.does) S.gives)
        talk.old talk.new (exec.old, source.old) (exec.new, source.new) n) }
    ensures err { OnErr result (HasStopped (Answers (Calls E.entries E.is_full E.is_broken E.does) S.gives)
        talk.old talk.new (exec.old, source.old) (exec.new, source.new)) }
    ensures read { IfErr result (λ fault. fault ≡ SessionFault.Read → (n : ℕ)
        × IsCaughtUp (Answers (Calls E.entries E.is_full E.is_broken E.does) S.gives)
        talk.old talk.new (exec.old, source.old) (exec.new, source.new) n) }
    ensures lines { IfErr result (λ fault. fault ≡ SessionFault.Lines →
        HasTooMuch (Answers (Calls E.entries E.is_full E.is_broken E.does) S.gives)
        talk.old talk.new (exec.old, source.old) (exec.new, source.new)) }
    ensures memory { IfErr result (λ fault. fault ≡ SessionFault.Memory →
        HasRunOut (Answers (Calls E.entries E.is_full E.is_broken E.does) S.gives)
        talk.old talk.new (exec.old, source.old) (exec.new, source.new)) }
    ensures failures { BlamesDevices talk.old talk.new result }
{
    let mut lines = LineBuffer::new(alloc);
    let mut chunk = [0u8; CHUNK];
    let mut left = MAX_BYTES;
    while left > 0 {
        let room = left.min(CHUNK);
        let taken = talk.read(&mut chunk[..room])?;
        if taken == 0 {
            return Ok(lines.lines);
        }
        answer_chunk(&mut lines, talk, exec, source, &chunk[..taken])?;
        left -= taken;
    }
    let mut one = [0u8; 1];
    match talk.read(&mut one)? {
        0 => Ok(lines.lines),
        _ => Err(SessionFault::Lines),
    }
}
