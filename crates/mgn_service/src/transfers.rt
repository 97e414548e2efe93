//! Transfers between two units of a service, by the desks of both.

ghost use Rattle.std.specs.Prelude.{◌≡◌, OnOk, Some};
ghost use Rattle.mgn_machine.specs.declared.request.Request.TheVariants.{Do};
ghost use Rattle.mgn_ledger.specs.Ledgers.{PassAnswers};
ghost use Rattle.mgn_service.specs.Commits.{Tries};
ghost use Rattle.mgn_service.specs.Pairs.{AreSightsOf};

use crate::commits::Decided;
use crate::pairs::{LookedAtBoth, Sights, commit_both, look_at_both};
use crate::service::{MOST_LOOKS, Service, Tried};
use crate::waits::hold;
use mgn_ledger::{Image, Pass};
use mgn_machine::{Answer, Command, Refusal, Reply};
use mgn_slots::SlotNames;
use mgn_table::TableName;
use mgn_unit_desk::{Gate, Point, UnitDesk};
use std::alloc::AllocError;
use std::sync::Wait;

impl<'a, T: Image, J: TableName + SlotNames> Service<'a, T, J> {
    // A transfer between two units, under the locks of both, which are taken in rising number.
    pub(crate) fn exec_two<R: Wait, G: Gate>(
        &self,
        rt: &R,
        pass: &mut Pass<'a, T, J>,
        gate: &G,
        command: &Command,
        giver: usize,
        taker: usize,
    ) -> Answer
        ensures { PassAnswers pass.old (Do command.now) result pass.new }
    {
        let lower = self.desks.get(giver.min(taker));
        let higher = self.desks.get(giver.max(taker));
        let (Some(lower), Some(higher)) = (lower, higher) else {
            return self.ledger.lock(rt).exec_plain(rt, pass, command);
        };
        let mut lower = hold(rt, lower);
        let mut higher = hold(rt, higher);
        if giver < taker {
            self.exec_both(rt, pass, gate, command, &mut lower, &mut higher)
        } else {
            self.exec_both(rt, pass, gate, command, &mut higher, &mut lower)
        }
    }

    // The same, with the giver's desk and the taker's.
    fn exec_both<R: Wait, G: Gate>(
        &self,
        rt: &R,
        pass: &mut Pass<'a, T, J>,
        gate: &G,
        command: &Command,
        giver: &mut UnitDesk<'a, T, J>,
        taker: &mut UnitDesk<'a, T, J>,
    ) -> Answer
        ensures { PassAnswers pass.old (Do command.now) result pass.new }
    {
        for _look in 0..MOST_LOOKS {
            match self.try_both(rt, pass, gate, command, giver, taker) {
                Tried::Answered(answer) => return answer,
                Tried::Stale => {}
                Tried::Apart => break,
            }
        }
        giver.forget();
        taker.forget();
        self.ledger.lock(rt).exec_plain(rt, pass, command)
    }

    // One look at the book and one commit.
    fn try_both<R: Wait, G: Gate>(
        &self,
        rt: &R,
        pass: &mut Pass<'a, T, J>,
        gate: &G,
        command: &Command,
        giver: &mut UnitDesk<'a, T, J>,
        taker: &mut UnitDesk<'a, T, J>,
    ) -> Tried
        ensures { Tries pass.old command.now result pass.new }
    {
        let looked = look_at_both(
            rt,
            self.alloc,
            &mut hold(rt, &self.ledger),
            pass,
            command,
            giver,
            taker,
        );
        let sights = match looked {
            LookedAtBoth::Seen(sights) => sights,
            LookedAtBoth::Answered(answer) => return Tried::Answered(answer),
            LookedAtBoth::Apart => return Tried::Apart,
        };
        if self.ready_both(giver, taker, &sights).is_err() {
            return Tried::Answered(Answer::refused(Refusal::Memory));
        }
        self.try_sights(rt, pass, gate, command, giver, taker, &sights)
    }

    // One commit, before which both desks move as they were looked at, under their units' locks alone.
    fn try_sights<R: Wait, G: Gate>(
        &self,
        rt: &R,
        pass: &mut Pass<'a, T, J>,
        gate: &G,
        command: &Command,
        giver: &mut UnitDesk<'a, T, J>,
        taker: &mut UnitDesk<'a, T, J>,
        sights: &Sights<'a, T, J>,
    ) -> Tried
        requires giver_unit { giver.old.0.unit ≡ sights.now.giver.0.unit }
        requires taker_unit { taker.old.0.unit ≡ sights.now.taker.0.unit }
        requires giver_has { giver.old.1 ≡ Some sights.now.giver.1.0 }
        requires taker_has { taker.old.1 ≡ Some sights.now.taker.1.0 }
        ensures { Tries pass.old command.now result pass.new }
    {
        giver.apply(&sights.giver);
        taker.apply(&sights.taker);
        gate.at(Point::Applied, pass.session());
        let decided = commit_both(
            rt,
            &mut hold(rt, &self.ledger),
            pass,
            command,
            giver,
            taker,
            sights,
        );
        let tried = match decided {
            Decided::Settled(place, stamp) => {
                giver.settle(&sights.giver, stamp.again());
                taker.settle(&sights.taker, stamp);
                return Tried::Answered(Answer {
                    place: Some(place),
                    reply: Reply::Done,
                });
            }
            Decided::Answered(answer) => Tried::Answered(answer),
            Decided::Stale => Tried::Stale,
            Decided::Apart => Tried::Apart,
        };
        giver.take_back(&sights.giver);
        taker.take_back(&sights.taker);
        tried
    }

    // Marks each of two desks with the nets that were looked at, unless it has them. An error says that memory was
    // refused.
    fn ready_both(
        &self,
        giver: &mut UnitDesk<'a, T, J>,
        taker: &mut UnitDesk<'a, T, J>,
        sights: &Sights<'a, T, J>,
    ) -> Result<(), AllocError>
        requires { AreSightsOf giver.old taker.old sights.now }
        ensures giver { OnOk result (giver.new.1 ≡ Some sights.now.giver.1.0) }
        ensures taker { OnOk result (taker.new.1 ≡ Some sights.now.taker.1.0) }
        ensures giver_unit { giver.new.0.unit ≡ giver.old.0.unit }
        ensures taker_unit { taker.new.0.unit ≡ taker.old.0.unit }
    {
        giver.ready(self.alloc, &sights.giver)?;
        self.count_mark(&sights.giver);
        taker.ready(self.alloc, &sights.taker)?;
        self.count_mark(&sights.taker);
        Ok(())
    }
}
