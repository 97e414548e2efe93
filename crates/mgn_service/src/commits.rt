//! The commit of a command whose units' desks have moved.

ghost use Rattle.std.specs.Prelude.{IsTrue};
ghost use Rattle.mgn_service.specs.Commits.{Decides};
ghost use Rattle.mgn_unit_desk.specs.UnitDesks.{IsAsSeen, IsMoved};

use mgn_ledger::{Entered, Image, Ledger, Pass};
use mgn_machine::{Answer, Command, Reply};
use mgn_plan::{Known, Plan, UnitChange};
use mgn_slots::{SlotNames, Stamp};
use mgn_table::TableName;
use mgn_unit_desk::{Sight, UnitDesk};
use std::sync::Wait;

/// What a commit by desks did.
#[derive(Drop)]
pub(crate) enum Decided<'a, T: Image, J: SlotNames> {
    /// The command is done, and has changed what its plan says: its place, and what shows the day after it.
    Settled(u64, Stamp<'a, T, J>),
    /// It is answered otherwise, and has changed nothing in the units.
    Answered(Answer),
    /// Nothing: another set came into force.
    Stale,
    /// Nothing: a unit is not as it was looked at.
    Apart,
}

// Whether a change is of the unit that was looked at and moves its nets by as much, and the unit is as it was then.
pub(crate) fn is_as_seen<'a, T: Image, J: TableName + SlotNames>(
    ledger: &Ledger<'a, T, J>,
    now: &UnitChange,
    sight: &Sight<'a, T, J>,
) -> bool
    ensures { IsTrue result → IsAsSeen T.shown ledger.now now.now sight.now.0 sight.now.1.0.1 }
{
    if !sight.moves_same(now) {
        return false;
    }
    ledger.is_since(now.unit, sight.stamp())
}

/// The commit of a command of one unit, whose desk has moved as it was looked at. No list of nets is compared, and
/// nothing is worked out.
pub(crate) fn commit<'a, R: Wait, T: Image, J: TableName + SlotNames>(
    rt: &R,
    ledger: &mut Ledger<'a, T, J>,
    pass: &mut Pass<'a, T, J>,
    command: &Command,
    desk: &UnitDesk<'a, T, J>,
    sight: &Sight<'a, T, J>,
) -> Decided<'a, T, J>
    requires { IsMoved T.shown sight.now.0 sight.now.1.0.1 desk.now.0 }
    ensures { Decides T.shown pass.old command.now sight.now.0 sight.now.1.0.1 result pass.new }
{
    if sight.version().number() < ledger.version().number() {
        return Decided::Stale;
    }
    let plan = ledger.plan(rt, command);
    let now = match &plan {
        Plan::Nothing => {
            let entered = ledger.enter(rt, pass, command, &plan, &Known::NOTHING);
            return Decided::Answered(entered.into_answer());
        }
        Plan::Two(..) => return Decided::Apart,
        Plan::One(now) => *now,
    };
    if !is_as_seen(ledger, &now, sight) {
        return Decided::Apart;
    }
    let known = Known {
        first: Some(desk.priced(sight, &now, &ledger.rows()[now.unit])),
        second: None,
    };
    match ledger.enter(rt, pass, command, &plan, &known) {
        Entered::Placed(place, Reply::Done, stamp) => Decided::Settled(place, stamp),
        other => Decided::Answered(other.into_answer()),
    }
}
