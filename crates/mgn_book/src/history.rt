ghost use Rattle.std.specs.Prelude.{◌≡◌, ◌<◌, ◌≤◌, ◌++◌, ◌∷◌, [], ℕ, length, slice_index_or, IfOk, IsOk, MatchOption, OnErr, OnOk, true};
ghost use Rattle.std.specs.List.{slice_get};
ghost use Rattle.std.specs.Option.{option_flatten, option_map};
ghost use Rattle.mgn_machine.specs.declared.entry.Entry.{Entry};
ghost use Rattle.mgn_machine.specs.declared.request.Recorded.TheVariants.{Asked, InForce, SetRefused};
ghost use Rattle.mgn_machine.specs.Brief.{is_brief};
ghost use Rattle.mgn_machine.specs.History.{entry};
ghost use Rattle.mgn_params.specs.Tables.{no_tables};
ghost use Rattle.mgn_book.specs.BookViews.{command_of};
ghost use Rattle.mgn_book.specs.Replies.{Grows};

use crate::names::{Likely, Names};
use crate::numbers::ThreeBytes;
use crate::replies::{Replies, StoredReply};
use crate::stored::{StoredEntry, StoredRequest, command_in, store_command};
use mgn_ids::SessionNo;
use mgn_machine::{Command, NewSet, Refusal, Reply};
use mgn_params::{ParamSet, Version, place_of_set};
use std::alloc::{AllocError, Global};
use std::marker::Model;

/// The entries of a book, in order of their commits. Contracts see the list of the entries, and whether memory for the
/// next one is reserved.
#[derive(Drop)]
pub(crate) struct History {
    entries: Vec<StoredEntry>,
    names: Names,
    replies: Replies,
    refused: Vec<ParamSet>,
}

impl Model for History {
    ghost use Rattle.std.specs.Prelude.{length, map, nat_le, nat_lt, ◌&&◌, vec_len, vec_capacity};
    ghost use Rattle.mgn_book.specs.History.{AreShown, EntryList, entry_of};

    ghost Value = { EntryList };

    ghost view = { λ h. record {
      entries = map (entry_of h.replies h.names h.refused.items) h.entries.items;
      reserved = nat_lt (vec_len h.entries) (vec_capacity h.entries) && h.replies.has_room
          && nat_le 2 h.names.account_room && nat_le 1 h.names.contract_room && nat_le 1 h.names.class_room;
    } };

    ghost invariant = { λ h. AreShown h.replies h.names (length h.refused.items) h.entries.items };
}

impl History {
    /// No entries. Takes no memory.
    pub fn new(alloc: Global) -> History
        ensures { result.entries ≡ [] }
    {
        History {
            entries: Vec::new(alloc),
            names: Names::new(alloc),
            replies: Replies::new(alloc),
            refused: Vec::new(alloc),
        }
    }

    /// How many entries there are.
    pub fn len(&self) -> usize
        ensures { result ≡ length self.now.entries }
    {
        self.entries.len()
    }

    /// The session of the entry of an index, none past the last.
    pub fn session(&self, index: usize) -> Option<SessionNo>
        ensures { result ≡ option_map (λ (e : Entry). e.session) (slice_get self.now.entries index) }
    {
        let stored = self.entries.get(index)?;
        Some(stored.session)
    }

    /// The command of the entry of an index, none past the last and where a switch was asked.
    pub fn command(&self, index: usize) -> Option<Command>
        ensures { result ≡
            option_flatten (option_map (λ (e : Entry). command_of e.request) (slice_get self.now.entries index)) }
    {
        let stored = self.entries.get(index)?;
        command_in(&self.names, stored.request)
    }

    /// The reply of the entry of an index, none past the last; the only error is that of `Reply::copy`.
    pub fn reply(&self, index: usize) -> Result<Option<Reply>, AllocError>
        ensures reply { IfOk result (λ found.
            found ≡ option_map (λ (e : Entry). e.reply) (slice_get self.now.entries index)) }
        ensures brief { MatchOption (slice_get self.now.entries index) (IsOk result)
            (λ e. is_brief e.reply ≡ true → IsOk result) }
    {
        match self.entries.get(index) {
            Some(stored) => Ok(Some(self.replies.reply(stored.reply)?)),
            None => Ok(None),
        }
    }

    /// Reserves memory for one more entry, whatever its reply. The entries stay, also where memory is refused.
    pub fn reserve(&mut self) -> Result<(), AllocError>
        ensures entries { self.new.entries ≡ self.old.entries }
        ensures ok { OnOk result (self.new.reserved ≡ true) }
    {
        self.entries.reserve(1)?;
        self.names.reserve()?;
        self.replies.reserve()
    }

    /// Writes the entry of a command for which memory is reserved. Where its names are likely to stand among those that
    /// the history has is looked at first. A statement is shared with the reply; the only error is that of `Reply::copy`,
    /// and then the entries stay.
    pub fn push(
        &mut self,
        session: SessionNo,
        number: u64,
        command: &Command,
        likely: &Likely,
        reply: &Reply,
    ) -> Result<(), AllocError>
        requires reserved { self.old.reserved ≡ true }
        requires few { length self.old.entries < 1000000 }
        requires number { number ≤ 1000000 }
        ensures ok { OnOk result (self.new.entries
            ≡ self.old.entries ++ entry session number (Asked command.now) reply.now ∷ []) }
        ensures err { OnErr result (self.new.entries ≡ self.old.entries) }
        ensures brief { is_brief reply.now ≡ true → IsOk result }
    {
        let reply = self.replies.store(reply)?;
        let request = store_command(&mut self.names, command, likely);
        self.entries.push_reserved(StoredEntry {
            session,
            number: ThreeBytes::new(number as u32),
            request,
            reply,
        });
        Ok(())
    }

    /// Writes the entry of a switch whose set came into force, for which memory is reserved.
    pub fn push_in_force(&mut self, session: SessionNo, number: u64, version: Version, told: NewSet)
        requires reserved { self.old.reserved ≡ true }
        requires few { length self.old.entries < 1000000 }
        requires number { number ≤ 1000000 }
        ensures { self.new.entries ≡
            self.old.entries ++ entry session number (InForce version) (Reply.NewSet told) ∷ [] }
    {
        let reply = self.replies.store_whole(Reply::NewSet(told));
        self.entries.push_reserved(StoredEntry {
            session,
            number: ThreeBytes::new(number as u32),
            request: StoredRequest::InForce(version),
            reply,
        });
    }

    /// Writes the entry of a switch whose set was refused, for which memory is reserved. The set is kept, and where
    /// there is no memory for that nothing has changed.
    pub fn push_refused(
        &mut self,
        session: SessionNo,
        number: u64,
        set: ParamSet,
        why: Refusal,
    ) -> Result<(), AllocError>
        requires reserved { self.old.reserved ≡ true }
        requires few { length self.old.entries < 1000000 }
        requires number { number ≤ 1000000 }
        ensures ok { OnOk result (
            self.new.entries ≡ self.old.entries ++ entry session number (SetRefused set) (Reply.Refused why) ∷ []) }
        ensures err { OnErr result (self.new.entries ≡ self.old.entries) }
    {
        let place = store_set(&mut self.refused, set)?;
        self.entries.push_reserved(StoredEntry {
            session,
            number: ThreeBytes::new(number as u32),
            request: StoredRequest::SetRefused(place),
            reply: StoredReply::Refused(why),
        });
        Ok(())
    }
}

// Puts a set that was refused at the end of a list, unless the list has it, and returns its place. Without memory for
// that the list is as it was. A set that the list has takes none.
fn store_set(refused: &mut Vec<ParamSet>, set: ParamSet) -> Result<usize, AllocError>
    ensures grown { OnOk result (Grows refused.old.items refused.new.items) }
    ensures within { IfOk result (λ place. place < length refused.new.items) }
    ensures set { IfOk result (λ place. slice_index_or refused.new.items place (no_tables []) ≡ set) }
    ensures err { OnErr result (refused.new.items ≡ refused.old.items) }
    ensures once { (i : ℕ) → i < length refused.old.items → slice_index_or refused.old.items i (no_tables []) ≡ set →
        IsOk result × (refused.new.items ≡ refused.old.items) }
{
    if let Some(place) = place_of_set(refused.as_slice(), &set) {
        return Ok(place);
    }
    refused.push(set)?;
    Ok(refused.len() - 1)
}
