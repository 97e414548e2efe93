ghost use Rattle.std.specs.Prelude.{◌≡◌, ◌+◌, ◌∷◌, [], length, IfOk};
ghost use Rattle.mgn_machine.specs.History.{Legal, calls, items_of};
ghost use Rattle.mgn_book.specs.BookViews.{opening};
ghost use Rattle.mgn_script.specs.Plain.{answer_of};

use crate::by_desks::{commit_command, commit_switch};
use mgn_book::{Book, Outcome};
use mgn_ids::SessionNo;
use mgn_machine::{Answer, Command, Refusal};
use mgn_params::{ParamSet, SetList, Work};
use mgn_pricing::Desks;
use mgn_session::Exec;
use std::alloc::{AllocError, Global};
use std::marker::Model;

/// A book over a shelf of one thread, all of whose commands come from session 1. Contracts see the sets of the shelf,
/// by version, and the book's day. The desks of its units stand beside it, so that what a command requires is not
/// worked out anew.
#[derive(Drop)]
pub struct Plain {
    alloc: Global,
    shelf: SetList,
    pub(crate) book: Book,
    desks: Desks,
}

impl Model for Plain {
    ghost use Rattle.mgn_script.specs.Plain.{IsPlain, ScriptView};

    ghost Value = { ScriptView };

    ghost view = { λ p. record { sets = p.shelf; day = p.book } };

    ghost invariant = { λ p. IsPlain p.shelf p.book p.desks };
}

impl Plain {
    /// A book before its first command, under its first set. The only error is that memory was refused.
    pub fn new(alloc: Global, set: ParamSet) -> Result<Plain, AllocError>
        ensures sets { IfOk result (λ plain. plain.sets ≡ set ∷ []) }
        ensures day { IfOk result (λ plain. plain.day ≡ opening) }
    {
        let shelf = SetList::new(alloc, set)?;
        let book = Book::new(alloc, &shelf);
        Ok(Plain {
            alloc,
            shelf,
            book,
            desks: Desks::new(alloc),
        })
    }

    /// How many commands the history has. It is legal: each has the machine's reply after those before it.
    pub fn len(&self) -> usize
        ensures count { result ≡ length self.now.day.history }
        ensures all { calls 1 self.now.day.history ≡ result }
        ensures legal { Legal self.now.sets self.now.day.history }
    {
        self.book.len()
    }
}

fn answer_of(outcome: Outcome) -> Answer
    ensures { result ≡ answer_of outcome }
{
    match outcome {
        Outcome::Done(place, reply) => Answer {
            place: Some(place),
            reply,
        },
        Outcome::Full => Answer::refused(Refusal::Full),
        Outcome::Memory => Answer::refused(Refusal::Memory),
    }
}

impl Plain {
    // The number of the next call, which comes from session 1 as all others did.
    fn next_number(&self) -> u64
        ensures number { result ≡ calls 1 self.now.day.history + 1 }
        ensures place { result ≡ length self.now.day.history + 1 }
    {
        self.book.calls(SessionNo::new(1)) + 1
    }
}

impl Exec for Plain {
    ghost use Rattle.mgn_script.specs.Plain.{Commits};

    ghost entries = { λ plain. items_of 1 plain.day.history };

    ghost is_full = { λ plain. length plain.day.history ≡ 1000000 };

    ghost is_broken = { λ plain. ⊥ };

    ghost does = { Commits };

    fn exec(&mut self, command: &Command) -> Answer {
        let number = self.next_number();
        answer_of(commit_command(
            self.alloc,
            &mut self.book,
            &mut self.desks,
            &self.shelf,
            number,
            command,
            &mut Work::new(),
        ))
    }

    fn switch(&mut self, set: ParamSet) -> Answer {
        let number = self.next_number();
        answer_of(commit_switch(
            self.alloc,
            &mut self.book,
            &mut self.desks,
            &mut self.shelf,
            number,
            set,
            &mut Work::new(),
        ))
    }
}
