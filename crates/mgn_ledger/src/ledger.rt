ghost use Rattle.std.specs.Prelude.{ℕ, ◌≡◌, ◌==◌, ◌+◌, ◌<◌, false, true, length, None, IsTrue, IfOk, IfSome};
ghost use Rattle.std.specs.List.{list_any};
ghost use Rattle.mgn_machine.specs.Refusals.{place_of};
ghost use Rattle.mgn_machine.specs.declared.reply.Refusal.TheVariants.{Broken};
ghost use Rattle.mgn_machine.specs.declared.reply.Reply.TheVariants.{Refused};
ghost use Rattle.mgn_machine.specs.declared.request.Request.TheVariants.{Do, Switch};
ghost use Rattle.mgn_unit.specs.NewSets.{ArePrepared};
ghost use Rattle.mgn_plan.specs.Plans.{Foresees, IsPossible, plan_of};
ghost use Rattle.mgn_register.specs.BookStates.{IsKept, account_unit};
ghost use Rattle.mgn_book.specs.BookViews.{Stands, opening};
ghost use Rattle.mgn_day.specs.Changes.{SameUnit};
ghost use Rattle.mgn_day.specs.Days.{set_of, version_of};
ghost use Rattle.mgn_day.specs.Gathering.{AreReady};
ghost use Rattle.mgn_ledger.specs.Ledgers.{PassAnswers, Enters, HasNoPlace};
ghost use Rattle.mgn_ledger.specs.Passes.{AreApart, AreAudited, IsBeside, fresh};

use crate::entered::{AuditFault, Entered};
use crate::image::Image;
use crate::pass::Pass;
use mgn_book::{Book, Outcome};
use mgn_day::places::{renew, settled, switch};
use mgn_ids::{AccountName, MOST_SESSIONS, SessionNo};
use mgn_machine::{Answer, Command, Refusal, Reply};
use mgn_params::{ParamSet, Shelf, Version, Work};
use mgn_plan::{Known, Plan};
use mgn_register::MOST_UNITS;
use mgn_slots::{SlotNames, Slots, Stamp, Stamps};
use mgn_table::{SetTable, TableName, TableShelf, Tokens};
use mgn_unit::{PreparedUnits, Row};
use std::alloc::{AllocError, Global};
use std::marker::Model;
use std::sync::Wait;

/// What lies under the lock: the book, the tokens of its sets, and for each entry what shows the day up to it.
/// Contracts see the sets and the book.
///
/// The type says that the history is legal and each row right under the set in force. Unless the ledger is broken it
/// says too that each entry is what its slot shows, so that no later holding can have rewritten one that a session was
/// told of. It is broken, for good, once a slot or a pass is found not to fit; then nothing is done any more.
#[derive(Drop)]
pub struct Ledger<'a, T: Image, J: TableName + SlotNames> {
    alloc: Global,
    table: &'a SetTable,
    book: Book,
    tokens: Tokens<J>,
    stamps: Stamps<'a, T, J>,
    // Of each unit the place of the last entry that changed its nets, or the set in force.
    places: Vec<usize>,
    broken: bool,
    made: u8,
    plain: u64,
    late: u64,
}

impl<'a, T: Image, J: TableName + SlotNames> Model for Ledger<'a, T, J> {
    ghost use Rattle.std.specs.Prelude.{◌≡◌, ◌≤◌, vec_capacity};
    ghost use Rattle.mgn_day.specs.Days.{Day};
    ghost use Rattle.mgn_ledger.specs.Ledgers.{IsLedger};

    ghost Value = { Day };

    ghost view = { λ l. record { sets = l.tokens; book = l.book } };

    ghost invariant = { λ l. (l.table.now ≡ J.table) × (l.made ≤ 16)
        × IsLedger T.shown l.stamps l.places.items (vec_capacity l.places) l.broken
        record { sets = l.tokens; book = l.book } };
}

impl<'a, T: Image, J: TableName + SlotNames> Ledger<'a, T, J> {
    /// A ledger before its first command, under its first set. All memory that its calls need beside the book's own is
    /// taken here; an error says that it was refused.
    pub fn new<R: Wait>(
        rt: &R,
        alloc: Global,
        slots: &'a Slots<T>,
        table: &'a SetTable,
        first: ParamSet,
    ) -> Result<Ledger<'a, T, J>, AllocError>
        requires slots { slots.now ≡ J.slots }
        requires table { table.now ≡ J.table }
        ensures { IfOk result (λ ledger. ledger.book ≡ opening) }
    {
        let stamps = Stamps::new(alloc, slots)?;
        let places = Vec::with_capacity(alloc, MOST_UNITS)?;
        let mut tokens = Tokens::open(rt, alloc, table, first)?;
        let book = open(alloc, &TableShelf::new(rt, table, &mut tokens));
        Ok(Ledger {
            alloc,
            table,
            book,
            tokens,
            stamps,
            places,
            broken: false,
            made: 0,
            plain: 0,
            late: 0,
        })
    }

    /// A pass of a new session, which has the next number; none where there are 16. It takes no memory.
    pub fn pass(&mut self) -> Option<Pass<'a, T, J>>
        ensures pass { IfSome result (λ pass. (session : ℕ) × (pass ≡ fresh session)) }
        ensures same { self.new ≡ self.old }
    {
        if self.made >= MOST_SESSIONS {
            return None;
        }
        self.made += 1;
        Some(Pass::new(SessionNo::new(self.made)))
    }

    // Whether the history begins with all that a pass has seen, and has no more calls of it.
    fn matches(&self, pass: &Pass<'a, T, J>) -> bool
        ensures { IsTrue result → IsBeside pass.now self.now }
    {
        if self.broken {
            return false;
        }
        if let Some(stamp) = &pass.last {
            if !self.stamps.has(stamp) {
                return false;
            }
        }
        self.book.calls(pass.session) == pass.count
    }

    /// What a command changes in the rows of margin units, as the book is now.
    pub fn plan<R: Wait>(&mut self, rt: &R, command: &Command) -> Plan
        ensures plan { result ≡ plan_of (set_of self.old) self.old.book.book.state command.now }
        ensures possible { IsPossible (set_of self.old) self.old.book.book.rows result }
        ensures same { self.new ≡ self.old }
    {
        self.book.plan(&TableShelf::new(rt, self.table, &mut self.tokens), command)
    }

    /// The margin unit of an account, none where there is no such account. It takes no memory.
    pub fn unit_of(&self, account: &AccountName) -> Option<usize>
        ensures { let state = self.now.book.book.state in
            result ≡ account_unit state (place_of state account.now) }
    {
        self.book.unit_of(account)
    }

    /// How many units had a requirement worked out in the book for a command that was answered with a place. It stays
    /// at its greatest value.
    pub fn plain_count(&self) -> u64 {
        self.plain
    }

    /// How many units had a requirement worked out in the book for a set that came into force: those of which nothing
    /// was prepared, or for other nets than they had then. It stays at its greatest value.
    pub fn late_count(&self) -> u64 {
        self.late
    }

    /// The rows of all margin units, in order of their numbers: each right under the set in force.
    pub fn rows(&self) -> &[Row]
        ensures rows { result.now ≡ self.now.book.book.rows }
        ensures kept { IsKept (set_of self.now) self.now.book.book }
    {
        self.book.rows()
    }

    /// The version in force.
    pub fn version(&self) -> Version
        ensures { result ≡ version_of self.now }
    {
        self.book.version()
    }

    /// The set in force. It can be read once the lock is given back, too.
    pub fn set(&self) -> &'a ParamSet
        ensures { result.now ≡ set_of self.now }
    {
        let (set, _) = self.tokens.look(self.table, self.book.version());
        set
    }

    /// What shows since when a unit has its nets under the set in force: the stamp of the last entry that changed one
    /// of these; none where the ledger is broken. It takes no memory.
    pub fn since(&self, unit: usize) -> Option<Stamp<'a, T, J>>
        requires { unit < length self.now.book.book.rows }
        ensures { IfSome result (λ stamp. SameUnit (T.shown stamp.1) self.now unit) }
    {
        if self.broken {
            return None;
        }
        Some(self.stamps.stamp(self.places[unit]))
    }

    /// Whether that is this stamp. Two numbers are compared.
    pub fn is_since(&self, unit: usize, stamp: &Stamp<'a, T, J>) -> bool
        ensures { IsTrue result → SameUnit (T.shown stamp.now.1) self.now unit }
    {
        if self.broken || unit >= self.places.len() {
            return false;
        }
        self.places[unit] == stamp.place() && self.stamps.has(stamp)
    }

    /// One command of a pass, what its units require being worked out here.
    #[tactic(auto, using(mgn_register::proofs::Foreseen::foresees_nothing))]
    pub fn exec_plain<R: Wait>(
        &mut self,
        rt: &R,
        pass: &mut Pass<'a, T, J>,
        command: &Command,
    ) -> Answer
        ensures { PassAnswers pass.old (Do command.now) result pass.new }
    {
        let plan = self.plan(rt, command);
        let answer = self
            .enter(rt, pass, command, &plan, &Known::NOTHING)
            .into_answer();
        if answer.place.is_some() {
            self.plain = self.plain.saturating_add(units_in(&plan));
        }
        answer
    }

    /// One command of a pass by its plan, where what its units require may be known: then nothing is worked out for
    /// them.
    /// `Broken` where the history does not begin with what the pass has seen, or has other calls of it, or where the slot of
    /// the next place has been given a value; from then on each call is. Else `Full` where the history is, else
    /// `Memory`.
    pub fn enter<R: Wait>(
        &mut self,
        rt: &R,
        pass: &mut Pass<'a, T, J>,
        command: &Command,
        plan: &Plan,
        known: &Known,
    ) -> Entered<'a, T, J>
        requires plan { plan.now ≡ plan_of (set_of self.old) self.old.book.book.state command.now }
        requires possible { IsPossible (set_of self.old) self.old.book.book.rows plan.now }
        requires known { Foresees (set_of self.old) self.old.book.book.rows plan.now known.now }
        ensures { Enters T.shown self.old pass.old command.now plan.now result pass.new }
    {
        let fits = self.matches(pass);
        if let Some(why) = closed(&mut self.broken, &self.stamps, fits) {
            return Entered::Unplaced(why);
        }
        let number = self.book.calls(pass.session) + 1;
        let place = self.stamps.len() + 1;
        let shelf = TableShelf::new(rt, self.table, &mut self.tokens);
        let mut work = Work::new();
        let outcome = self.book.commit_known(
            self.alloc,
            pass.session,
            number,
            command,
            &shelf,
            plan,
            known,
            &mut work,
        );
        match outcome {
            Outcome::Full => Entered::Unplaced(Refusal::Full),
            Outcome::Memory => Entered::Unplaced(Refusal::Memory),
            Outcome::Done(at, reply) => {
                let done = settled(plan, &reply);
                renew(&mut self.places, &done, self.book.rows().len(), place);
                match self.stamps.set_next(T::of(&self.book, &self.tokens)) {
                    Ok(stamp) => {
                        pass.count = number;
                        pass.last = Some(stamp.again());
                        Entered::Placed(at, reply, stamp)
                    }
                    Err(_) => {
                        self.broken = true;
                        Entered::Unplaced(Refusal::Broken)
                    }
                }
            }
        }
    }

    /// One switch of a pass to a set, as `enter` has it for a command. What units require under the set may have been
    /// prepared, by their numbers, for the nets that their stamps show. It is used where a unit's nets are still the
    /// same, which a stamp shows where they have not changed since; any other unit is worked out here. The rows before
    /// are handed out.
    #[inline(never)]
    pub fn enter_switch<R: Wait>(
        &mut self,
        rt: &R,
        pass: &mut Pass<'a, T, J>,
        set: ParamSet,
        prepared: &mut PreparedUnits,
        since: &[Stamp<'a, T, J>],
    ) -> Answer
        requires prepared { ArePrepared set prepared.old.units.items }
        requires ready { AreReady T.shown set prepared.old.units.items since.now }
        ensures { PassAnswers pass.old (Switch set) result pass.new }
    {
        let fits = self.matches(pass);
        if let Some(why) = closed(&mut self.broken, &self.stamps, fits) {
            return Answer::refused(why);
        }
        let late = self.note_current(&set, prepared, since);
        let number = self.book.calls(pass.session) + 1;
        let place = self.stamps.len() + 1;
        let mut shelf = TableShelf::new(rt, self.table, &mut self.tokens);
        let mut work = Work::new();
        let outcome = self.book.commit_switch(
            self.alloc,
            pass.session,
            number,
            set,
            &mut shelf,
            prepared,
            &mut work,
        );
        match outcome {
            Outcome::Full => Answer::refused(Refusal::Full),
            Outcome::Memory => Answer::refused(Refusal::Memory),
            Outcome::Done(at, reply) => {
                switch(&mut self.places, &reply, place);
                self.late = self.late.saturating_add(late_in(&reply, late));
                match self.stamps.set_next(T::of(&self.book, &self.tokens)) {
                    Ok(stamp) => {
                        pass.count = number;
                        pass.last = Some(stamp);
                        Answer {
                            place: Some(at),
                            reply,
                        }
                    }
                    Err(_) => {
                        self.broken = true;
                        Answer::refused(Refusal::Broken)
                    }
                }
            }
        }
    }

    /// How many entries the history has, where the passes are those that were made, each once, and it has just their
    /// calls.
    pub fn audit(&self, passes: &Vec<Pass<'a, T, J>>) -> Result<u64, AuditFault>
        ensures { IfOk result (λ entries.
            AreAudited self.now.sets self.now.book.history passes.now.items entries) }
    {
        if !self.are_all(passes) {
            return Err(AuditFault::Passes);
        }
        let mut total: u64 = 0;
        for pass in passes {
            if !self.matches(pass) {
                return Err(AuditFault::Unmatched(self.lowest_unmatched(passes, pass)));
            }
            total = total.checked_add(pass.calls()).ok_or(AuditFault::Passes)?;
        }
        if total == self.book.len() as u64 {
            Ok(total)
        } else {
            Err(AuditFault::Passes)
        }
    }

    // Whether these are all passes that were made, each once.
    fn are_all(&self, passes: &Vec<Pass<'a, T, J>>) -> bool
        ensures { IsTrue result → AreApart passes.now.items }
    {
        if passes.len() != usize::from(self.made) {
            return false;
        }
        for i in 0..passes.len() {
            let session = passes[i].session;
            if session.number() > self.made || is_one_of(&passes[..i], session) {
                return false;
            }
        }
        true
    }

    // The lowest session of those whose pass does not match, of which this is one.
    fn lowest_unmatched(&self, passes: &Vec<Pass<'a, T, J>>, one: &Pass<'a, T, J>) -> SessionNo {
        let mut lowest = one.session;
        for pass in passes {
            if pass.session.number() < lowest.number() && !self.matches(pass) {
                lowest = pass.session;
            }
        }
        lowest
    }
}

// Whether one of some passes is of a session.
fn is_one_of<'a, T: Image, J: SlotNames>(passes: &[Pass<'a, T, J>], session: SessionNo) -> bool
    ensures { result ≡ list_any (λ p. session == p.session) passes.now }
{
    passes
        .iter()
        .any(|pass| session.number() == pass.session.number())
}

// Why a pass's next call gets no place, if so: the ledger is broken, or is from now on since the pass does not fit it
// or the next slot has a value already; or the history is full.
fn closed<'a, T: Image, J: SlotNames>(
    broken: &mut bool,
    stamps: &Stamps<'a, T, J>,
    fits: bool,
) -> Option<Refusal>
    ensures sound { result ≡ None → broken.old ≡ false }
    ensures still { result ≡ None → broken.new ≡ false }
    ensures fits { result ≡ None → fits ≡ true }
    ensures room { result ≡ None → length stamps.now < length J.slots }
    ensures broken { broken.new ≡ false → broken.old ≡ false }
    ensures unplaced { IfSome result (λ why. HasNoPlace (Refused why)) }
    ensures from_now_on { IfSome result (λ why. why ≡ Broken → broken.new ≡ true) }
{
    if *broken {
        return Some(Refusal::Broken);
    }
    if !fits {
        *broken = true;
        return Some(Refusal::Broken);
    }
    if stamps.is_full() {
        return Some(Refusal::Full);
    }
    if stamps.taken().is_some() {
        *broken = true;
        return Some(Refusal::Broken);
    }
    None
}

// How many units a plan has.
fn units_in(plan: &Plan) -> u64 {
    match plan {
        Plan::Nothing => 0,
        Plan::One(_) => 1,
        Plan::Two(..) => 2,
    }
}

// How many of a switch's late units it worked out: none where the set did not come into force.
fn late_in(reply: &Reply, late: u64) -> u64 {
    match reply {
        Reply::NewSet(_) => late,
        Reply::Done
        | Reply::Figures(_)
        | Reply::Totals(_)
        | Reply::Statement(_)
        | Reply::Refused(_) => 0,
    }
}

// The book before its first command. (A function of its own, since a shelf is lent to it.)
fn open<S: Shelf>(alloc: Global, shelf: &S) -> Book
    requires { length (S.sets shelf.now) ≡ 1 }
    ensures opening { result ≡ opening }
    ensures stands { Stands (S.sets shelf.now) result }
{
    Book::new(alloc, shelf)
}
