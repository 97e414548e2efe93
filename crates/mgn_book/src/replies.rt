//! What replies of the history are stored as.

ghost use Rattle.std.specs.Prelude.{◌≡◌, ◌≤◌, [], length, FitsSigned, IfOk, IfSome, IsOk, IsSome, OnErr, OnOk, true};
ghost use Rattle.std.specs.Int.{w64};
ghost use Rattle.mgn_machine.specs.Brief.{is_brief};
ghost use Rattle.mgn_book.specs.Replies.{AddsFewReplies, AreNarrow, IsKept, KeepsReplies, TakesLittle, reply_of};

use crate::numbers::ThreeBytes;
use mgn_machine::{Refusal, Reply, UnitFigures};
use mgn_num::Cents;
use std::alloc::{AllocError, Global};
use std::marker::Model;

/// Figures in half the room; nearly all fit. Contracts see the figures.
#[derive(Clone, Copy)]
pub(crate) struct NarrowFigures {
    requirement: i64,
    exposure_requirement: i64,
    value: i64,
    exposure_value: i64,
    room: i64,
}

impl Model for NarrowFigures {
    ghost use Rattle.mgn_machine.specs.declared.reply.UnitFigures.{UnitFigures};

    ghost Value = { UnitFigures };

    ghost view = { λ n. record {
      requirement = n.requirement;
      exposure_requirement = n.exposure_requirement;
      value = n.value;
      exposure_value = n.exposure_value;
      room = n.room;
    } };

    ghost inverse = { λ f. record {
      requirement = f.requirement;
      exposure_requirement = f.exposure_requirement;
      value = f.value;
      exposure_value = f.exposure_value;
      room = f.room;
    } };
}

fn narrowed(amount: Cents) -> Option<i64>
    ensures same { IfSome result (λ cents. cents ≡ amount) }
    ensures fits { FitsSigned w64 amount → IsSome result }
{
    i64::try_from(amount.amount()).ok()
}

impl NarrowFigures {
    /// The figures, none where one does not fit.
    fn of(figures: &UnitFigures) -> Option<NarrowFigures>
        ensures same { IfSome result (λ narrow. narrow ≡ figures.now) }
        ensures fits { AreNarrow figures.now → IsSome result }
    {
        Some(NarrowFigures {
            requirement: narrowed(figures.requirement)?,
            exposure_requirement: narrowed(figures.exposure_requirement)?,
            value: narrowed(figures.value)?,
            exposure_value: narrowed(figures.exposure_value)?,
            room: narrowed(figures.room)?,
        })
    }

    fn figures(&self) -> UnitFigures
        ensures { result ≡ self.now }
    {
        UnitFigures {
            requirement: Cents::new(i128::from(self.requirement)),
            exposure_requirement: Cents::new(i128::from(self.exposure_requirement)),
            value: Cents::new(i128::from(self.value)),
            exposure_value: Cents::new(i128::from(self.exposure_value)),
            room: Cents::new(i128::from(self.room)),
        }
    }
}

/// A reply, or its place in a list of those that take more memory.
#[derive(Clone, Copy)]
pub(crate) enum StoredReply {
    Done,
    Figures(ThreeBytes),
    At(ThreeBytes),
    Refused(Refusal),
}

/// The replies of entries that are neither a refusal nor a plain `OK`. Contracts see the lists, and whether there is
/// room for one more in each.
#[derive(Drop)]
pub(crate) struct Replies {
    figures: Vec<NarrowFigures>,
    others: Vec<Reply>,
}

impl Model for Replies {
    ghost use Rattle.std.specs.Prelude.{nat_lt, ◌&&◌, vec_len, vec_capacity};
    ghost use Rattle.mgn_book.specs.Replies.{ReplyLists};

    ghost Value = { ReplyLists };

    ghost view = { λ r. record {
      figures = r.figures.items;
      others = r.others.items;
      has_room = nat_lt (vec_len r.figures) (vec_capacity r.figures) && nat_lt (vec_len r.others) (vec_capacity r.others);
    } };
}

impl Replies {
    /// No replies. Takes no memory.
    pub fn new(alloc: Global) -> Replies
        ensures figures { result.figures ≡ [] }
        ensures others { result.others ≡ [] }
    {
        Replies {
            figures: Vec::new(alloc),
            others: Vec::new(alloc),
        }
    }

    /// Reserves memory for one more reply. The replies stay, also where memory is refused.
    pub fn reserve(&mut self) -> Result<(), AllocError>
        ensures figures { self.new.figures ≡ self.old.figures }
        ensures others { self.new.others ≡ self.old.others }
        ensures ok { OnOk result (self.new.has_room ≡ true) }
    {
        self.figures.reserve(1)?;
        self.others.reserve(1)
    }

    /// Stores a reply, in the memory that is reserved: figures that fit in 64 bits in half the room, an `OK` alone and
    /// a refusal in none. A statement is shared with the reply. The only error is that of `Reply::copy`; then nothing has
    /// changed.
    pub fn store(&mut self, reply: &Reply) -> Result<StoredReply, AllocError>
        requires room { self.old.has_room ≡ true }
        requires few_figures { length self.old.figures ≤ 1000000 }
        requires few_others { length self.old.others ≤ 1000000 }
        ensures kept { KeepsReplies self.old self.new }
        ensures stored { IfOk result (IsKept self.new) }
        ensures reply { IfOk result (λ stored. reply_of self.new stored ≡ reply.now) }
        ensures few { AddsFewReplies self.old self.new }
        ensures little { TakesLittle reply.now self.old self.new }
        ensures brief { is_brief reply.now ≡ true → IsOk result }
        ensures refused { OnErr result (self.new ≡ self.old) }
    {
        match reply {
            Reply::Done => Ok(StoredReply::Done),
            Reply::Refused(why) => Ok(StoredReply::Refused(*why)),
            Reply::Figures(figures) => Ok(self.store_figures(figures)),
            other => Ok(self.store_whole(other.copy()?)),
        }
    }

    fn store_figures(&mut self, figures: &UnitFigures) -> StoredReply
        requires room { self.old.has_room ≡ true }
        requires few_figures { length self.old.figures ≤ 1000000 }
        requires few_others { length self.old.others ≤ 1000000 }
        ensures kept { KeepsReplies self.old self.new }
        ensures stored { IsKept self.new result }
        ensures reply { reply_of self.new result ≡ Reply.Figures figures.now }
        ensures few { AddsFewReplies self.old self.new }
        ensures little { AreNarrow figures.now → self.new.others ≡ self.old.others }
    {
        let Some(narrow) = NarrowFigures::of(figures) else {
            return self.store_whole(Reply::Figures(*figures));
        };
        let place = ThreeBytes::new(self.figures.len() as u32);
        self.figures.push_reserved(narrow);
        StoredReply::Figures(place)
    }

    /// Stores a reply as it is, in the memory that is reserved.
    pub fn store_whole(&mut self, reply: Reply) -> StoredReply
        requires room { self.old.has_room ≡ true }
        requires few { length self.old.others ≤ 1000000 }
        ensures kept { KeepsReplies self.old self.new }
        ensures stored { IsKept self.new result }
        ensures reply { reply_of self.new result ≡ reply }
        ensures few { AddsFewReplies self.old self.new }
        ensures figures { self.new.figures ≡ self.old.figures }
    {
        let place = ThreeBytes::new(self.others.len() as u32);
        self.others.push_reserved(reply);
        StoredReply::At(place)
    }

    /// A copy of the reply that is stored. The only error is that of `Reply::copy`.
    pub fn reply(&self, stored: StoredReply) -> Result<Reply, AllocError>
        requires { IsKept self.now stored }
        ensures equal { IfOk result (λ copy. copy ≡ reply_of self.now stored) }
        ensures brief { is_brief (reply_of self.now stored) ≡ true → IsOk result }
    {
        match stored {
            StoredReply::Done => Ok(Reply::Done),
            StoredReply::Refused(why) => Ok(Reply::Refused(why)),
            StoredReply::Figures(place) => {
                Ok(Reply::Figures(self.figures[place.number() as usize].figures()))
            }
            StoredReply::At(place) => self.others[place.number() as usize].copy(),
        }
    }
}
