//! Transfers between two units: a look at both in one holding of the book's lock, and the commit once both desks have
//! moved.

ghost use Rattle.std.specs.Prelude.{◌≡◌, IfErr, IfOk};
ghost use Rattle.mgn_plan.specs.Plans.{CanChange};
ghost use Rattle.mgn_day.specs.Days.{set_of};
ghost use Rattle.mgn_ledger.specs.Ledgers.{HasNoPlace};
ghost use Rattle.mgn_service.specs.Pairs.{AreSightsOf, DecidesBoth, LooksAtBoth};
ghost use Rattle.mgn_unit_desk.specs.UnitDesks.{IsMoved};

use crate::commits::{Decided, is_as_seen};
use crate::looks::sight;
use mgn_ledger::{Entered, Image, Ledger, Pass};
use mgn_machine::{Answer, Command, Refusal, Reply};
use mgn_plan::{Known, Plan, UnitChange};
use mgn_slots::SlotNames;
use mgn_table::TableName;
use mgn_unit_desk::{Sight, UnitDesk};
use std::alloc::Global;
use std::sync::Wait;

/// What was looked at of the giver's unit and of the taker's.
#[derive(Drop)]
pub(crate) struct Sights<'a, T: Image, J: SlotNames> {
    pub(crate) giver: Sight<'a, T, J>,
    pub(crate) taker: Sight<'a, T, J>,
}

/// What a look at two units found.
#[derive(Drop)]
pub(crate) enum LookedAtBoth<'a, T: Image, J: SlotNames> {
    /// The command is answered: it changes no portfolio, or it could not be looked at.
    Answered(Answer),
    /// What it changes of the units.
    Seen(Sights<'a, T, J>),
    /// Nothing: it is not a transfer between these two.
    Apart,
}

// What a call needs of both units, whose desks these are. `Memory`, or `Broken`.
fn both_sights<'a, T: Image, J: TableName + SlotNames>(
    alloc: Global,
    ledger: &Ledger<'a, T, J>,
    given: &UnitChange,
    taken: &UnitChange,
    giver: &UnitDesk<'a, T, J>,
    taker: &UnitDesk<'a, T, J>,
) -> Result<Sights<'a, T, J>, Refusal>
    requires given { CanChange (set_of ledger.now) ledger.now.book.book.rows given.now }
    requires taken { CanChange (set_of ledger.now) ledger.now.book.book.rows taken.now }
    requires giver { given.now.unit ≡ giver.now.0.unit }
    requires taker { taken.now.unit ≡ taker.now.0.unit }
    ensures of { IfOk result (λ sights. AreSightsOf giver.now taker.now sights) }
    ensures why { IfErr result (λ why. HasNoPlace (Reply.Refused why)) }
{
    Ok(Sights {
        giver: sight(alloc, ledger, given, giver.stamp())?,
        taker: sight(alloc, ledger, taken, taker.stamp())?,
    })
}

/// Looks at a transfer between the units of two desks. Where it changes no portfolio it is committed in the same
/// holding.
#[tactic(auto, using(mgn_register::proofs::Foreseen::foresees_nothing))]
pub(crate) fn look_at_both<'a, R: Wait, T: Image, J: TableName + SlotNames>(
    rt: &R,
    alloc: Global,
    ledger: &mut Ledger<'a, T, J>,
    pass: &mut Pass<'a, T, J>,
    command: &Command,
    giver: &UnitDesk<'a, T, J>,
    taker: &UnitDesk<'a, T, J>,
) -> LookedAtBoth<'a, T, J>
    ensures { LooksAtBoth pass.old command.now giver.now taker.now result pass.new }
{
    let plan = ledger.plan(rt, command);
    let (given, taken) = match &plan {
        Plan::Nothing => {
            let entered = ledger.enter(rt, pass, command, &plan, &Known::NOTHING);
            return LookedAtBoth::Answered(entered.into_answer());
        }
        Plan::One(_) => return LookedAtBoth::Apart,
        Plan::Two(given, taken) => (given, taken),
    };
    if given.unit != giver.unit() {
        return LookedAtBoth::Apart;
    }
    if taken.unit != taker.unit() {
        return LookedAtBoth::Apart;
    }
    match both_sights(alloc, ledger, given, taken, giver, taker) {
        Ok(sights) => LookedAtBoth::Seen(sights),
        Err(why) => LookedAtBoth::Answered(Answer::refused(why)),
    }
}

/// The commit of a transfer between two units, whose desks have moved as they were looked at. No list of nets is
/// compared, and nothing is worked out.
pub(crate) fn commit_both<'a, R: Wait, T: Image, J: TableName + SlotNames>(
    rt: &R,
    ledger: &mut Ledger<'a, T, J>,
    pass: &mut Pass<'a, T, J>,
    command: &Command,
    giver: &UnitDesk<'a, T, J>,
    taker: &UnitDesk<'a, T, J>,
    sights: &Sights<'a, T, J>,
) -> Decided<'a, T, J>
    requires giver { IsMoved T.shown sights.now.giver.0 sights.now.giver.1.0.1 giver.now.0 }
    requires taker { IsMoved T.shown sights.now.taker.0 sights.now.taker.1.0.1 taker.now.0 }
    ensures { DecidesBoth T.shown pass.old command.now sights.now result pass.new }
{
    if sights.giver.version().number() < ledger.version().number() {
        return Decided::Stale;
    }
    let plan = ledger.plan(rt, command);
    let (given, taken) = match &plan {
        Plan::Nothing => {
            let entered = ledger.enter(rt, pass, command, &plan, &Known::NOTHING);
            return Decided::Answered(entered.into_answer());
        }
        Plan::One(_) => return Decided::Apart,
        Plan::Two(given, taken) => (*given, *taken),
    };
    if !is_as_seen(ledger, &given, &sights.giver) {
        return Decided::Apart;
    }
    if !is_as_seen(ledger, &taken, &sights.taker) {
        return Decided::Apart;
    }
    let rows = ledger.rows();
    let known = Known {
        first: Some(giver.priced(&sights.giver, &given, &rows[given.unit])),
        second: Some(taker.priced(&sights.taker, &taken, &rows[taken.unit])),
    };
    match ledger.enter(rt, pass, command, &plan, &known) {
        Entered::Placed(place, Reply::Done, stamp) => Decided::Settled(place, stamp),
        other => Decided::Answered(other.into_answer()),
    }
}
