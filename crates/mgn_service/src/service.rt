ghost use Rattle.std.specs.Prelude.{ℕ, ◌≡◌, ◌<◌, ◌≤◌, List, IfOk, IfSome, Some};
ghost use Rattle.mgn_params.specs.Tables.{Tables};
ghost use Rattle.mgn_machine.specs.declared.entry.Entry.{Entry};
ghost use Rattle.mgn_machine.specs.declared.request.Request.TheVariants.{Do, Switch};
ghost use Rattle.mgn_unit.specs.NewSets.{ArePrepared};
ghost use Rattle.mgn_day.specs.Gathering.{AreReady};
ghost use Rattle.mgn_ledger.specs.Ledgers.{PassAnswers};
ghost use Rattle.mgn_ledger.specs.Passes.{AreAudited, fresh};
ghost use Rattle.mgn_service.specs.Commits.{Begins, Tries};

use crate::commits::{Decided, commit};
use crate::looks::{Looked, look};
use crate::orders::{keep_order, order_of};
use crate::units::{CommandUnits, keep_units, known_units, units_of};
use crate::waits::hold;
use mgn_ids::SessionNo;
use mgn_ledger::{AuditFault, Image, Ledger, Pass};
use mgn_machine::{Answer, Command, Refusal, Reply};
use mgn_params::ParamSet;
use mgn_register::MOST_UNITS;
use mgn_slots::{SlotNames, Slots};
use mgn_table::{SetTable, TableName};
use mgn_unit_desk::{Gate, Point, Prepared, Sight, UnitDesk, Workers};
use std::alloc::{AllocError, Global};
use std::sync::atomic::{AtomicU64, Ordering};
use std::sync::{Mutex, Wait};
use std::thread::Threads;

/// How often a call looks at the book at most. A look is stale only where another set came into force since, and a day
/// has at most 65.
pub(crate) const MOST_LOOKS: u8 = 65;

/// A book that sessions on threads of their own share: the book under one lock, and the desk of each margin unit under
/// a lock of its own. Locks of units are taken in rising number, then that of the book, and none while the book's is
/// held.
#[derive(Drop)]
pub struct Service<'a, T: Image, J: TableName + SlotNames> {
    pub(crate) alloc: Global,
    pub(crate) ledger: Mutex<Ledger<'a, T, J>>,
    pub(crate) desks: Vec<Mutex<UnitDesk<'a, T, J>>>,
    marks: AtomicU64,
    pub(crate) workers: usize,
    ghost some: { 0 < workers },
    ghost few: { workers ≤ 64 },
}

/// What the first look at a command found: its answer, or the units whose locks it takes.
#[derive(Drop)]
pub(crate) enum Begun {
    Answered(Answer),
    One(usize),
    /// The giver's unit and the taker's.
    Two(usize, usize),
}

/// What one look and commit did.
#[derive(Drop)]
pub(crate) enum Tried {
    Answered(Answer),
    Stale,
    Apart,
}

// A command without units is committed at once.
fn begin<'a, R: Wait, T: Image, J: TableName + SlotNames>(
    rt: &R,
    ledger: &mut Ledger<'a, T, J>,
    pass: &mut Pass<'a, T, J>,
    command: &Command,
) -> Begun
    ensures { Begins pass.old command.now result pass.new }
{
    match units_of(ledger, command) {
        CommandUnits::Nothing => Begun::Answered(ledger.exec_plain(rt, pass, command)),
        CommandUnits::One(unit) => Begun::One(unit),
        CommandUnits::Two(giver, taker) => Begun::Two(giver, taker),
    }
}

// An empty desk for each unit that there can be.
fn empty_desks<'a, T: Image, J: SlotNames>(
    alloc: Global,
) -> Result<Vec<Mutex<UnitDesk<'a, T, J>>>, AllocError> {
    let mut desks = Vec::with_capacity(alloc, MOST_UNITS)?;
    for unit in 0..MOST_UNITS {
        desks.push(Mutex::new(UnitDesk::empty(unit)))?;
    }
    Ok(desks)
}

impl<'a, T: Image, J: TableName + SlotNames> Service<'a, T, J> {
    /// A service before its first command, under its first set. Up to so many workers, 1 to 64, share the units of a
    /// switch. An error says that memory was refused.
    pub fn new<R: Wait>(
        rt: &R,
        alloc: Global,
        slots: &'a Slots<T>,
        table: &'a SetTable,
        first: ParamSet,
        workers: usize,
    ) -> Result<Service<'a, T, J>, AllocError>
        requires slots { slots.now ≡ J.slots }
        requires table { table.now ≡ J.table }
        requires some { 0 < workers }
        requires few { workers ≤ 64 }
    {
        let desks = empty_desks(alloc)?;
        let ledger = Ledger::new(rt, alloc, slots, table, first)?;
        Ok(Service {
            alloc,
            ledger: Mutex::new(ledger),
            desks,
            marks: AtomicU64::new(0),
            workers,
        })
    }

    /// A pass of a new session, which has the next number; none where there are 16.
    pub fn pass(&self, rt: &impl Wait) -> Option<Pass<'a, T, J>>
        ensures { IfSome result (λ pass. (session : ℕ) × (pass ≡ fresh session)) }
    {
        self.ledger.lock(rt).pass()
    }

    /// One command of a pass. Where the answer has a place, the pass's calls are those before with this one last, and
    /// there is a legal history, beginning with all that the pass had seen, whose entries of this session are just
    /// these, at their places. Without a place the pass is as it was: memory was refused, the history is full, or the
    /// service is closed.
    pub fn exec<R: Wait, G: Gate>(
        &self,
        rt: &R,
        pass: &mut Pass<'a, T, J>,
        gate: &G,
        command: &Command,
    ) -> Answer
        ensures { PassAnswers pass.old (Do command.now) result pass.new }
    {
        match known_units(pass, command) {
            CommandUnits::One(unit) => return self.exec_one(rt, pass, gate, command, unit),
            CommandUnits::Two(giver, taker) => {
                return self.exec_two(rt, pass, gate, command, giver, taker);
            }
            CommandUnits::Nothing => {}
        }
        let begun = begin(rt, &mut hold(rt, &self.ledger), pass, command);
        match begun {
            Begun::Answered(answer) => answer,
            Begun::One(unit) => {
                keep_units(pass, command, unit, unit);
                self.exec_one(rt, pass, gate, command, unit)
            }
            Begun::Two(giver, taker) => {
                keep_units(pass, command, giver, taker);
                self.exec_two(rt, pass, gate, command, giver, taker)
            }
        }
    }

    /// One switch of a pass to a set, as `exec` has it for a command. What units require under the set is worked out by
    /// the service's workers on copies of their nets; the book's lock is held while the nets are copied, and for the
    /// commit, which works out only units whose nets are others by then.
    #[inline(never)]
    pub fn switch<R: Threads + Wait + Sync, G: Gate + Sync>(
        &self,
        rt: &R,
        pass: &mut Pass<'a, T, J>,
        gate: &G,
        set: ParamSet,
    ) -> Answer
        ensures { PassAnswers pass.old (Switch set) result pass.new }
    {
        let Ok(mut prepared) = self.prepare(rt, pass.session(), gate, &set) else {
            return Answer::refused(Refusal::Memory);
        };
        self.enter_switch(rt, pass, gate, set, &mut prepared)
    }

    /// The same, by workers that are lent.
    #[inline(never)]
    pub fn switch_by<R: Wait, G: Gate>(
        &self,
        rt: &R,
        pass: &mut Pass<'a, T, J>,
        gate: &G,
        workers: &Workers,
        set: ParamSet,
    ) -> Answer
        ensures { PassAnswers pass.old (Switch set) result pass.new }
    {
        let Ok(mut prepared) = self.prepare_by(rt, pass.session(), workers, &set) else {
            return Answer::refused(Refusal::Memory);
        };
        self.enter_switch(rt, pass, gate, set, &mut prepared)
    }

    /// The same, where the caller works out alone what units require, with no thread started.
    #[inline(never)]
    pub fn switch_alone<R: Wait, G: Gate>(
        &self,
        rt: &R,
        pass: &mut Pass<'a, T, J>,
        gate: &G,
        set: ParamSet,
    ) -> Answer
        ensures { PassAnswers pass.old (Switch set) result pass.new }
    {
        let Ok(mut prepared) = self.prepare_alone(rt, pass.session(), gate, &set) else {
            return Answer::refused(Refusal::Memory);
        };
        self.enter_switch(rt, pass, gate, set, &mut prepared)
    }

    // The commit of a switch.
    fn enter_switch<R: Wait, G: Gate>(
        &self,
        rt: &R,
        pass: &mut Pass<'a, T, J>,
        gate: &G,
        set: ParamSet,
        prepared: &mut Prepared<'a, T, J>,
    ) -> Answer
        requires prepared { ArePrepared set prepared.old.units.units.items }
        requires ready { AreReady T.shown set prepared.old.units.units.items prepared.old.since.items }
        ensures { PassAnswers pass.old (Switch set) result pass.new }
    {
        gate.at(Point::Prepared, pass.session());
        let since = prepared.since.as_slice();
        self.ledger
            .lock(rt)
            .enter_switch(rt, pass, set, &mut prepared.units, since)
    }

    // A command of one unit, under that unit's lock.
    fn exec_one<R: Wait, G: Gate>(
        &self,
        rt: &R,
        pass: &mut Pass<'a, T, J>,
        gate: &G,
        command: &Command,
        unit: usize,
    ) -> Answer
        ensures { PassAnswers pass.old (Do command.now) result pass.new }
    {
        let Some(place) = self.desks.get(unit) else {
            return self.ledger.lock(rt).exec_plain(rt, pass, command);
        };
        let mut desk = hold(rt, place);
        if let Some(sight) = desk.foreseen(command, &order_of(pass, command)) {
            if let Tried::Answered(answer) = self.try_sight(
                rt, pass, gate, command, &mut desk, &sight,
            ) {
                return answer;
            }
        }
        for _look in 0..MOST_LOOKS {
            match self.try_one(rt, pass, gate, command, &mut desk) {
                Tried::Answered(answer) => return answer,
                Tried::Stale => {}
                Tried::Apart => break,
            }
        }
        desk.forget();
        self.ledger.lock(rt).exec_plain(rt, pass, command)
    }

    // One look at the book and one commit.
    fn try_one<R: Wait, G: Gate>(
        &self,
        rt: &R,
        pass: &mut Pass<'a, T, J>,
        gate: &G,
        command: &Command,
        desk: &mut UnitDesk<'a, T, J>,
    ) -> Tried
        ensures { Tries pass.old command.now result pass.new }
    {
        let unit = desk.unit();
        let looked = look(
            rt,
            self.alloc,
            &mut hold(rt, &self.ledger),
            pass,
            command,
            unit,
            desk.stamp(),
        );
        let sight = match looked {
            Looked::Seen(sight) => sight,
            Looked::Answered(answer) => return Tried::Answered(answer),
            Looked::Apart => return Tried::Apart,
        };
        if desk.ready(self.alloc, &sight).is_err() {
            return Tried::Answered(Answer::refused(Refusal::Memory));
        }
        self.count_mark(&sight);
        self.try_sight(rt, pass, gate, command, desk, &sight)
    }

    // One commit, before which the desk moves under its unit's lock alone, as it was looked at or foreseen.
    fn try_sight<R: Wait, G: Gate>(
        &self,
        rt: &R,
        pass: &mut Pass<'a, T, J>,
        gate: &G,
        command: &Command,
        desk: &mut UnitDesk<'a, T, J>,
        sight: &Sight<'a, T, J>,
    ) -> Tried
        requires unit { desk.old.0.unit ≡ sight.now.0.unit }
        requires has { desk.old.1 ≡ Some sight.now.1.0 }
        ensures { Tries pass.old command.now result pass.new }
    {
        desk.apply(sight);
        gate.at(Point::Applied, pass.session());
        let decided = commit(rt, &mut hold(rt, &self.ledger), pass, command, desk, sight);
        let tried = match decided {
            Decided::Settled(place, stamp) => {
                desk.settle(sight, stamp);
                keep_order(pass, command);
                return Tried::Answered(Answer {
                    place: Some(place),
                    reply: Reply::Done,
                });
            }
            Decided::Answered(answer) => Tried::Answered(answer),
            Decided::Stale => Tried::Stale,
            Decided::Apart => Tried::Apart,
        };
        desk.take_back(sight);
        tried
    }

    pub(crate) fn count_mark(&self, sight: &Sight<'a, T, J>) {
        if sight.is_copied() {
            let _ = self.marks.fetch_update(
                Ordering::SeqCst,
                Ordering::SeqCst,
                |count| count.checked_add(1),
            );
        }
    }

    /// How many units had a requirement worked out in the book for a command. It stays at its greatest value.
    pub fn plain_count(&self, rt: &impl Wait) -> u64 {
        self.ledger.lock(rt).plain_count()
    }

    /// How many units had a requirement worked out in the book for a set that came into force, since their nets were
    /// others by then than those that the workers had. It stays at its greatest value.
    pub fn late_count(&self, rt: &impl Wait) -> u64 {
        self.ledger.lock(rt).late_count()
    }

    /// How often a call marked a desk. It stays at its greatest value.
    pub fn mark_count(&self) -> u64 {
        self.marks.load(Ordering::SeqCst)
    }

    /// Ends the service, and gives how many entries its history has, where the passes are those that were made, each
    /// once, and it has just their calls. `Passes` where they are not, and `Unmatched` with a session whose calls it has
    /// not; in both cases service and passes are gone.
    pub fn close(self, passes: Vec<Pass<'a, T, J>>) -> Result<u64, AuditFault>
        ensures { IfOk result (λ entries. (sets : List Tables) × (history : List Entry)
            × AreAudited sets history passes.entry.items entries) }
    {
        let Service {
            alloc: _,
            ledger,
            desks,
            marks: _,
            workers: _,
        } = self;
        let ledger = ledger.into_inner();
        let audited = ledger.audit(&passes);
        // Dropped by one call each: a proof goes through each field of what a function lets go.
        drop(ledger);
        drop(desks);
        audited
    }
}
