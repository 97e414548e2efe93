//! Looks at the book for one of a command's units, in one holding of its lock.

ghost use Rattle.std.specs.Prelude.{◌≡◌, IfErr, IfOk, None, Some};
ghost use Rattle.mgn_plan.specs.Plans.{CanChange};
ghost use Rattle.mgn_day.specs.Days.{set_of};
ghost use Rattle.mgn_ledger.specs.Ledgers.{HasNoPlace};
ghost use Rattle.mgn_service.specs.Commits.{Looks};
ghost use Rattle.mgn_unit_desk.specs.UnitDesks.{moved_in};

use mgn_ledger::{Image, Ledger, Pass};
use mgn_machine::{Answer, Command, Refusal, Reply};
use mgn_plan::{Known, Plan, UnitChange};
use mgn_slots::{SlotNames, Stamp};
use mgn_table::TableName;
use mgn_unit_desk::{Sight, UnitMove};
use std::alloc::Global;
use std::sync::Wait;

/// What a look found.
#[derive(Drop)]
pub(crate) enum Looked<'a, T: Image, J: SlotNames> {
    /// The command is answered: it changes no portfolio, or it could not be looked at.
    Answered(Answer),
    /// What it changes of the unit.
    Seen(Sight<'a, T, J>),
    /// Nothing: it is not a command of this unit alone.
    Apart,
}

// What a call needs of one of its units: what its command changes there, the set in force, what shows the unit's nets,
// and a copy of these unless this stamp shows them. `Memory`, or `Broken`.
pub(crate) fn sight<'a, T: Image, J: TableName + SlotNames>(
    alloc: Global,
    ledger: &Ledger<'a, T, J>,
    change: &UnitChange,
    own: &Option<Stamp<'a, T, J>>,
) -> Result<Sight<'a, T, J>, Refusal>
    requires { CanChange (set_of ledger.now) ledger.now.book.book.rows change.now }
    ensures change { IfOk result (λ sight. sight.0 ≡ moved_in change.now) }
    ensures has { IfOk result (λ sight. sight.1.1 ≡ None → own.now ≡ Some sight.1.0) }
    ensures why { IfErr result (λ why. HasNoPlace (Reply.Refused why)) }
{
    let version = ledger.version();
    let set = ledger.set();
    let seen = UnitMove {
        unit: change.unit,
        change: change.change,
    };
    if let Some(own) = own {
        if ledger.is_since(change.unit, own) {
            return Ok(Sight::new(seen, version, set, own.again(), None));
        }
    }
    let Some(stamp) = ledger.since(change.unit) else {
        return Err(Refusal::Broken);
    };
    let Ok(nets) = ledger.rows()[change.unit].copy_nets(alloc) else {
        return Err(Refusal::Memory);
    };
    Ok(Sight::new(seen, version, set, stamp, Some(nets)))
}

/// Looks at a command of one unit, whose desk has this stamp. Where the command changes no portfolio it is committed in
/// the same holding.
#[tactic(auto, using(mgn_register::proofs::Foreseen::foresees_nothing))]
pub(crate) fn look<'a, R: Wait, T: Image, J: TableName + SlotNames>(
    rt: &R,
    alloc: Global,
    ledger: &mut Ledger<'a, T, J>,
    pass: &mut Pass<'a, T, J>,
    command: &Command,
    unit: usize,
    own: &Option<Stamp<'a, T, J>>,
) -> Looked<'a, T, J>
    ensures { Looks pass.old command.now unit own.now result pass.new }
{
    let plan = ledger.plan(rt, command);
    match &plan {
        Plan::Nothing => {
            let entered = ledger.enter(rt, pass, command, &plan, &Known::NOTHING);
            Looked::Answered(entered.into_answer())
        }
        Plan::One(change) if change.unit == unit => match sight(alloc, ledger, change, own) {
            Ok(sight) => Looked::Seen(sight),
            Err(why) => Looked::Answered(Answer::refused(why)),
        },
        _ => Looked::Apart,
    }
}
