//! A book with the shelf of its sets, which works out anew what its units require.

use mgn_book::{Book, Outcome};
use mgn_ids::{AccountName, SessionNo};
use mgn_machine::{Answer, Command, Request};
use mgn_params::{ParamSet, SetList, Work};
use mgn_unit::PreparedUnits;
use mgn_wire::{LineReply, reply_text, statement_text};
use std::alloc::{AllocError, Global};
use std::marker::Model;

#[derive(Drop)]
pub(crate) struct Shelved {
    alloc: Global,
    shelf: SetList,
    book: Book,
}

impl Model for Shelved {
    ghost use Rattle.mgn_book.specs.BookViews.{BookView, Stands};

    ghost Value = { BookView };

    ghost view = { λ d. d.book };

    ghost invariant = { λ d. Stands d.shelf d.book };
}

impl Shelved {
    /// A book before its first command, under its first set.
    pub(crate) fn new(alloc: Global, set: ParamSet) -> Result<Shelved, AllocError> {
        let shelf = SetList::new(alloc, set)?;
        let book = Book::new(alloc, &shelf);
        Ok(Shelved { alloc, shelf, book })
    }

    /// Commits a request, with nothing known or prepared. No answer where memory is refused or the history is full.
    pub(crate) fn commit(&mut self, session: SessionNo, request: Request) -> Option<Answer> {
        let number = self.book.calls(session) + 1;
        let alloc = self.alloc;
        let outcome = match request {
            Request::Do(command) => {
                self.book.commit_plain(
                    alloc,
                    session,
                    number,
                    &command,
                    &self.shelf,
                    &mut Work::new(),
                )
            }
            Request::Switch(set) => {
                self.book.commit_switch(
                    alloc,
                    session,
                    number,
                    set,
                    &mut self.shelf,
                    &mut PreparedUnits::none(alloc),
                    &mut Work::new(),
                )
            }
        };
        match outcome {
            Outcome::Done(place, reply) => Some(Answer {
                place: Some(place),
                reply,
            }),
            Outcome::Full | Outcome::Memory => None,
        }
    }

    /// Writes what a command is answered; whether it was done or refused.
    pub(crate) fn answer(
        &mut self,
        session: SessionNo,
        command: &Command,
        out: &mut Vec<u8>,
    ) -> bool {
        match self.commit(session, Request::Do(*command)) {
            Some(answer) => reply_text(&LineReply::Answered(answer), out).is_ok(),
            None => false,
        }
    }

    /// Writes an account's statement, if there is such an account.
    pub(crate) fn state(&self, account: &AccountName, out: &mut Vec<u8>) -> bool {
        match self.book.statement(self.alloc, &self.shelf, account) {
            Ok(Some(told)) => statement_text(&told, out).is_ok(),
            Ok(None) | Err(_) => false,
        }
    }

    /// Writes the reply that the history has at a place, if there is such an entry.
    pub(crate) fn recall(&self, place: u64, out: &mut Vec<u8>) -> bool {
        match self.book.reply(place) {
            Ok(Some(reply)) => {
                let place = Some(place);
                reply_text(&LineReply::Answered(Answer { place, reply }), out).is_ok()
            }
            Ok(None) | Err(_) => false,
        }
    }

    pub(crate) fn session(&self, place: u64) -> Option<u8> {
        Some(self.book.session(place)?.number())
    }

    pub(crate) fn unit_of(&self, account: &AccountName) -> Option<usize> {
        self.book.unit_of(account)
    }

    pub(crate) fn calls(&self, session: SessionNo) -> u64 {
        self.book.calls(session)
    }

    pub(crate) fn len(&self) -> usize {
        self.book.legal();
        self.book.len()
    }
}
