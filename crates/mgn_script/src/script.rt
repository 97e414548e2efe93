ghost use Rattle.std.specs.Prelude.{◌≡◌, [], ℕ, IfOk, IfErr, OnErr};
ghost use Rattle.mgn_machine.specs.History.{replay};
ghost use Rattle.mgn_book.specs.BookViews.{Begins, opening};
ghost use Rattle.mgn_session.specs.Conversation.{IsQuiet};
ghost use Rattle.mgn_session.specs.Session.{Answers, BlamesDevices, HasAnswered, HasRunOut, HasStopped, HasTooMuch, IsCaughtUp};
ghost use Rattle.mgn_script.specs.Script.{Steps};

use crate::plain::Plain;
use mgn_session::{Conversation, SessionFault, SetSource, run_lines};
use std::alloc::Global;
use std::io::{Read, Write};

/// Answers a script in a book before its first command, as `run_lines` does, and gives the number of lines. What goes
/// out are the texts of the machine's replies to the lines, in order, where a `SWITCH` asks for the set of the file
/// that the source gives. A reply without a place may stand in the place of one where memory could not be had or the
/// history is full, and then that request is no step.
pub fn run_script<R: Read, W: Write, S: SetSource>(
    alloc: Global,
    talk: &mut Conversation<R, W>,
    plain: &mut Plain,
    source: &mut S,
) -> Result<u64, SessionFault>
    requires quiet { IsQuiet talk.old }
    requires fresh { plain.old.day ≡ opening }
    ensures ok { IfOk result (λ n. HasAnswered (Answers (Steps plain.new.sets) S.gives)
        talk.old talk.new ([], source.old) (plain.new.day.history, source.new) n) }
    ensures err { OnErr result (HasStopped (Answers (Steps plain.new.sets) S.gives)
        talk.old talk.new ([], source.old) (plain.new.day.history, source.new)) }
    ensures read { IfErr result (λ fault. fault ≡ SessionFault.Read → (n : ℕ)
        × IsCaughtUp (Answers (Steps plain.new.sets) S.gives)
        talk.old talk.new ([], source.old) (plain.new.day.history, source.new) n) }
    ensures lines { IfErr result (λ fault. fault ≡ SessionFault.Lines
        → HasTooMuch (Answers (Steps plain.new.sets) S.gives)
        talk.old talk.new ([], source.old) (plain.new.day.history, source.new)) }
    ensures memory { IfErr result (λ fault. fault ≡ SessionFault.Memory
        → HasRunOut (Answers (Steps plain.new.sets) S.gives)
        talk.old talk.new ([], source.old) (plain.new.day.history, source.new)) }
    ensures failures { BlamesDevices talk.old talk.new result }
    ensures sets { Begins plain.old.sets plain.new.sets }
    ensures state { plain.new.day.book.state ≡ replay plain.new.sets plain.new.day.history }
{
    // What the type of the book says is a fact for the last clauses.
    let _ = &plain.book;
    run_lines(alloc, talk, plain, source)
}
