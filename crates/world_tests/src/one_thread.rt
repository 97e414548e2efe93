//! The book of one thread, which works out anew what each command requires, beside a book of sessions.

use crate::drawing::Drawing;
use mgn_book::{Book, Outcome};
use mgn_ids::SessionNo;
use mgn_machine::{Answer, Command, Reply};
use mgn_params::{ParamSet, SetList, Work};
use mgn_unit::PreparedUnits;
use mgn_wire::{LineReply, reply_text};
use std::alloc::Global;
use std::marker::Model;
use std::test::Fail;

/// A book with the shelf of its sets.
#[derive(Drop)]
pub(crate) struct OneThread {
    alloc: Global,
    shelf: SetList,
    book: Book,
}

impl Model for OneThread {
    ghost use Rattle.mgn_book.specs.BookViews.{BookView, Stands};

    ghost Value = { BookView };

    ghost view = { λ d. d.book };

    ghost invariant = { λ d. Stands d.shelf d.book };
}

/// The line or lines of a reply at a place.
pub(crate) fn text(alloc: Global, place: u64, reply: Reply) -> Result<Vec<u8>, Fail> {
    let mut out = Vec::new(alloc);
    let place = Some(place);
    reply_text(&LineReply::Answered(Answer { place, reply }), &mut out)?;
    Ok(out)
}

impl OneThread {
    /// The book before its first command.
    pub fn new(alloc: Global, first: ParamSet) -> Result<OneThread, Fail> {
        let shelf = SetList::new(alloc, first)?;
        let book = Book::new(alloc, &shelf);
        Ok(OneThread { alloc, shelf, book })
    }

    pub fn alloc(&self) -> Global {
        self.alloc
    }

    pub fn len(&self) -> usize {
        self.book.len()
    }

    // Takes a command.
    fn ask(&mut self, session: SessionNo, command: &Command) -> Outcome {
        let number = self.book.calls(session) + 1;
        self.book.commit_plain(
            self.alloc,
            session,
            number,
            command,
            &self.shelf,
            &mut Work::new(),
        )
    }

    // Takes a set, for which nothing was prepared.
    fn switch(&mut self, session: SessionNo, set: ParamSet) -> Outcome {
        let number = self.book.calls(session) + 1;
        self.book.commit_switch(
            self.alloc,
            session,
            number,
            set,
            &mut self.shelf,
            &mut PreparedUnits::none(self.alloc),
            &mut Work::new(),
        )
    }

    /// Takes what the entry of a book at a place asks, in its session, and tells what it is answered. A session's
    /// switches are to its own set.
    pub fn follow(&mut self, book: &Book, place: u64, drawing: &Drawing) -> Result<Vec<u8>, Fail> {
        let Some(session) = book.session(place) else {
            return Err(Fail::new("no entry"));
        };
        let outcome = match book.command(place) {
            Some(command) => self.ask(session, &command),
            None => self.switch(session, drawing.set_of(session.number() as usize)?),
        };
        match outcome {
            Outcome::Done(place, reply) => text(self.alloc, place, reply),
            Outcome::Full | Outcome::Memory => Err(Fail::new("no commit")),
        }
    }
}
