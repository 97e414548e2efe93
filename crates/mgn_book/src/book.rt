ghost use Rattle.std.specs.Prelude.{◌≡◌, ◌+◌, ◌<◌, ◌≤◌, length, IfOk, IfSome, IsOk, List, MatchOption, true};
ghost use Rattle.mgn_params.specs.Shelves.{set_at};
ghost use Rattle.mgn_params.specs.Tables.{Tables};
ghost use Rattle.mgn_machine.specs.Brief.{is_brief};
ghost use Rattle.mgn_machine.specs.Refusals.{place_of};
ghost use Rattle.mgn_machine.specs.declared.request.Request.TheVariants.{Do, Switch};
ghost use Rattle.mgn_machine.specs.History.{calls};
ghost use Rattle.mgn_unit.specs.NewSets.{ArePrepared};
ghost use Rattle.mgn_unit.specs.Prepared.{AreCurrent, ArePreparedFor};
ghost use Rattle.mgn_register.specs.BookStates.{account_unit, statement_found};
ghost use Rattle.mgn_plan.specs.Plans.{Foresees, IsIdle, IsPossible, plan_of};
ghost use Rattle.mgn_book.specs.BookViews.{Committed, Leaves, LeavesRows, Shelves, Stands, command_at, opening, reply_at, session_at};

use crate::history::History;
use crate::in_force::{SwitchCall, switch_set};
use crate::names::Likely;
use mgn_ids::{AccountName, SessionNo};
use mgn_machine::{Command, Reply, Statement};
use mgn_params::{ParamSet, Shelf, Version, Work, set_of};
use mgn_plan::{Known, Plan};
use mgn_register::{Register, StepFault, step};
use mgn_unit::{PreparedUnits, Row};
use std::alloc::{AllocError, Global};
use std::marker::Model;

/// How many entries the history has at most.
pub const MOST_ENTRIES: usize = 1_000_000;

/// What a commit did.
#[derive(Drop)]
pub enum Outcome {
    /// One step, with the place of its entry in the history and its reply.
    Done(u64, Reply),
    /// Nothing: the history is full.
    Full,
    /// Nothing: memory was refused.
    Memory,
}

/// The state of the machine, a row for each margin unit, and the history. Contracts see the view: the book of state and
/// rows, and the list of the entries. The type says that the day stands: its history is legal, and leads to this state
/// with these rows. Under which sets, each call says of the shelf that it is given.
#[derive(Drop)]
pub struct Book {
    pub(crate) register: Register,
    pub(crate) history: History,
    pub(crate) counts: [u64; 16],
}

impl Model for Book {
    ghost use Rattle.mgn_book.specs.BookViews.{BookView, IsBook};

    ghost Value = { BookView };

    ghost view = { λ b. record { book = b.register; history = b.history.entries } };

    ghost invariant = { λ b. IsBook record { book = b.register; history = b.history.entries } b.counts };
}

impl Book {
    /// The book before its first command, under the set of a shelf that has no other yet. Takes no memory.
    pub fn new<S: Shelf>(alloc: Global, shelf: &S) -> Book
        requires { length (S.sets shelf.now) ≡ 1 }
        ensures opening { result ≡ opening }
        ensures stands { Stands (S.sets shelf.now) result }
    {
        Book {
            register: Register::new(alloc, shelf.first()),
            history: History::new(alloc),
            counts: [0; 16],
        }
    }

    /// How many entries the history has. It takes no memory.
    pub fn len(&self) -> usize
        ensures { result ≡ length self.now.history }
    {
        self.history.len()
    }

    /// How many entries of the history are a session's. It takes no memory, and is a look at a count.
    pub fn calls(&self, session: SessionNo) -> u64
        ensures count { result ≡ calls session self.now.history }
        ensures few { result ≤ 1000000 }
    {
        let place = count_place(session);
        self.counts[place]
    }

    /// The reply of the entry at a place of the history, which counts from 1, as `Outcome::Done` tells it; none where
    /// there is no such entry. It takes no memory; an error says that no more owners of a statement can be counted.
    pub fn reply(&self, place: u64) -> Result<Option<Reply>, AllocError>
        ensures reply { IfOk result (λ found. found ≡ reply_at self.now.history place) }
        ensures brief { MatchOption (reply_at self.now.history place) (IsOk result)
            (λ reply. is_brief reply ≡ true → IsOk result) }
    {
        if place == 0 {
            return Ok(None);
        }
        self.history.reply(place as usize - 1)
    }

    /// The session of the entry at a place of the history, which counts from 1; none where there is no such entry. It
    /// takes no memory.
    pub fn session(&self, place: u64) -> Option<SessionNo>
        ensures { result ≡ session_at self.now.history place }
    {
        if place == 0 {
            return None;
        }
        self.history.session(place as usize - 1)
    }

    /// The command of the entry at a place of the history, which counts from 1; none where there is no such entry, or
    /// where its request is a switch. It takes no memory.
    pub fn command(&self, place: u64) -> Option<Command>
        ensures { result ≡ command_at self.now.history place }
    {
        if place == 0 {
            return None;
        }
        self.history.command(place as usize - 1)
    }

    /// The version of the set in force.
    pub fn version(&self) -> Version
        ensures { result ≡ self.now.book.state.version }
    {
        self.register.version()
    }

    /// The rows of all margin units, in order of their numbers.
    pub fn rows(&self) -> &[Row]
        ensures { result.now ≡ self.now.book.rows }
    {
        self.register.rows()
    }

    /// The margin unit of an account: the place of its row, none where there is no such account. It takes no memory.
    pub fn unit_of(&self, account: &AccountName) -> Option<usize>
        ensures unit { let state = self.now.book.state in
            result ≡ account_unit state (place_of state account.now) }
        ensures within { IfSome result (λ unit. unit < length self.now.book.rows) }
    {
        self.register.unit_of(*account)
    }

    /// What every book meets: no work, a fact for callers.
    pub fn legal(&self)
        ensures { (sets : List Tables) × Stands sets self.now }
    {
        let _ = &self.history;
    }

    /// What a command changes in the rows of margin units under the set in force, where nothing but want of room
    /// refuses it. It takes no memory.
    pub fn plan<S: Shelf>(&self, shelf: &S, command: &Command) -> Plan
        requires { Stands (S.sets shelf.now) self.now }
        ensures plan { let state = self.now.book.state in
            result ≡ plan_of (set_at (S.sets shelf.now) state.version) state command.now }
        ensures possible { let book = self.now.book in
            IsPossible (set_at (S.sets shelf.now) book.state.version) book.rows result }
    {
        let set = set_of(shelf, self.register.version());
        self.register.plan(set, command)
    }

    /// One step of the machine and its entry in the history, what its units require being worked out. `Full` where the
    /// history has 1,000,000 entries, `Memory` where memory is refused; then nothing has changed.
    #[tactic(auto, using(mgn_register::proofs::Foreseen::foresees_nothing))]
    pub fn commit_plain<S: Shelf>(
        &mut self,
        alloc: Global,
        session: SessionNo,
        number: u64,
        command: &Command,
        shelf: &S,
        work: &mut Work,
    ) -> Outcome
        requires stands { Stands (S.sets shelf.now) self.old }
        requires number { number ≡ calls session self.old.history + 1 }
        ensures stands { Stands (S.sets shelf.now) self.new }
        ensures committed { Committed (S.sets shelf.now) self.old session number (Do command.now) result self.new }
        ensures nets { let state = self.old.book.state in
            let set = set_at (S.sets shelf.now) state.version in
            Leaves set (plan_of set state command.now) self.old.book.rows result self.new.book.rows }
    {
        let plan = self.plan(shelf, command);
        self.commit_known(
            alloc,
            session,
            number,
            command,
            shelf,
            &plan,
            &Known::NOTHING,
            work,
        )
    }

    /// The same by the command's plan, so that what it found is not looked for again. What its units require once it is
    /// done may be known: where all of it is, nothing is worked out.
    pub fn commit_known<S: Shelf>(
        &mut self,
        alloc: Global,
        session: SessionNo,
        number: u64,
        command: &Command,
        shelf: &S,
        plan: &Plan,
        known: &Known,
        work: &mut Work,
    ) -> Outcome
        requires stands { Stands (S.sets shelf.now) self.old }
        requires number { number ≡ calls session self.old.history + 1 }
        requires plan { let state = self.old.book.state in
            plan.now ≡ plan_of (set_at (S.sets shelf.now) state.version) state command.now }
        requires known { let state = self.old.book.state in
            let set = set_at (S.sets shelf.now) state.version in
            Foresees set self.old.book.rows (plan_of set state command.now) known.now }
        ensures stands { Stands (S.sets shelf.now) self.new }
        ensures committed { Committed (S.sets shelf.now) self.old session number (Do command.now) result self.new }
        ensures nets { let state = self.old.book.state in
            let set = set_at (S.sets shelf.now) state.version in
            Leaves set (plan_of set state command.now) self.old.book.rows result self.new.book.rows }
        ensures idle { IsIdle plan.now known.now work.old work.new }
    {
        if self.history.len() >= MOST_ENTRIES {
            return Outcome::Full;
        }
        if self.history.reserve().is_err() {
            return Outcome::Memory;
        }
        let set = set_of(shelf, self.register.version());
        let reply = match step(&mut self.register, alloc, set, command, plan, known, work) {
            Ok(reply) => reply,
            Err(StepFault::Memory) => return Outcome::Memory,
            Err(StepFault::Refused(_)) => unreachable!(),
        };
        if self
            .history
            .push(session, number, command, &likely_places(plan), &reply)
            .is_err()
        {
            return Outcome::Memory;
        }
        self.counts[count_place(session)] = number;
        Outcome::Done(self.history.len() as u64, reply)
    }

    /// The statement of an account under the set in force, none where there is no such account. An error says that
    /// memory was refused. The book is not asked to commit anything, and its history tells nothing of it.
    pub fn statement<S: Shelf>(
        &self,
        alloc: Global,
        shelf: &S,
        account: &AccountName,
    ) -> Result<Option<Statement>, AllocError>
        requires { Stands (S.sets shelf.now) self.now }
        ensures { let state = self.now.book.state in
            IfOk result (λ told.
            told ≡ statement_found (set_at (S.sets shelf.now) state.version) state (place_of state account.now)) }
    {
        let set = set_of(shelf, self.register.version());
        self.register.statement(alloc, set, *account)
    }

    /// One switch to a set and its entry: it comes into force under the next version, or it is refused. `Full` where
    /// the history has 1,000,000 entries, `Memory` where memory is refused; then nothing has changed, in the book and
    /// on the shelf.
    ///
    /// What units require under the set may have been prepared, by their numbers. It is taken where a unit's nets are
    /// still the same, which is looked at unless it is known; any other unit is worked out here. Where it is so of all
    /// units, no risk array is read. The rows before a set that comes into force are handed out.
    pub fn commit_switch<S: Shelf>(
        &mut self,
        alloc: Global,
        session: SessionNo,
        number: u64,
        set: ParamSet,
        shelf: &mut S,
        prepared: &mut PreparedUnits,
        work: &mut Work,
    ) -> Outcome
        requires stands { Stands (S.sets shelf.old) self.old }
        requires number { number ≡ calls session self.old.history + 1 }
        requires prepared { ArePrepared set prepared.old.units.items }
        requires current { let old = set_at (S.sets shelf.old) self.old.book.state.version in
            AreCurrent old set self.old.book.rows prepared.old.units.items prepared.old.current.items }
        ensures place { S.place shelf.new ≡ S.place shelf.old }
        ensures stands { Stands (S.sets shelf.new) self.new }
        ensures committed { Committed (S.sets shelf.new) self.old session number (Switch set) result self.new }
        ensures sets { Shelves (S.sets shelf.old) (Switch set) result (S.sets shelf.new) }
        ensures rows { LeavesRows self.old.book.rows result self.new.book.rows }
        ensures idle { let old = set_at (S.sets shelf.old) self.old.book.state.version in
            ArePreparedFor old set self.old.book.rows prepared.old.units.items → work.new ≡ work.old }
    {
        if MOST_ENTRIES <= self.history.len() {
            return Outcome::Full;
        }
        if self.history.reserve().is_err() {
            return Outcome::Memory;
        }
        let switched = switch_set(
            alloc,
            &mut self.register,
            &mut self.history,
            SwitchCall { session, number },
            set,
            shelf,
            prepared,
            work,
        );
        let reply = match switched {
            Ok(reply) => reply,
            Err(StepFault::Memory) => return Outcome::Memory,
            Err(StepFault::Refused(_)) => unreachable!(),
        };
        let own = count_place(session);
        self.counts[own] = number;
        Outcome::Done(self.history.len() as u64, reply)
    }
}

// Where the names of a command may be found, by its plan.
fn likely_places(plan: &Plan) -> Likely {
    match plan {
        Plan::One(found) => Likely {
            account: found.account,
            contract: found.change.contract,
        },
        Plan::Nothing | Plan::Two(..) => Likely::NOWHERE,
    }
}

// Where the count of a session stands, which are numbered from 1.
pub(crate) fn count_place(session: SessionNo) -> usize
    ensures place { result + 1 ≡ session }
    ensures within { result < 16 }
{
    session.number() as usize - 1
}
