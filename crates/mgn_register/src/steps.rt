ghost use Rattle.std.specs.Prelude.{◌≡◌, ◌≢◌, IfOk, OnOk, true, false};
ghost use Rattle.mgn_machine.specs.Brief.{is_brief};
ghost use Rattle.mgn_machine.specs.Refusals.{place_of};
ghost use Rattle.mgn_machine.specs.Step.{step_under, asked, ended};
ghost use Rattle.mgn_register.specs.BookStates.{IsKept, Steps, Replies, answer_of};
ghost use Rattle.mgn_plan.specs.Plans.{FollowsPlan, Foresees, IsIdle, LeavesNets, plan_of};
ghost use Rattle.mgn_plan.specs.declared.plans.Plan.TheVariants.{Nothing};

use crate::register::{Register, refuse_if};
use crate::step_fault::StepFault;
use mgn_ids::AccountName;
use mgn_machine::{Command, Refusal, Reply};
use mgn_params::{ParamSet, Work};
use mgn_plan::{Known, Plan};
use std::alloc::Global;

impl Register {
    /// The figures of an account's unit.
    #[tactic(auto, using(mgn_unit::proofs::Least::figures_of_row))]
    pub fn ask(&self, set: &ParamSet, account: AccountName) -> Reply
        requires kept { IsKept set.now self.now }
        ensures { result ≡ asked set.now self.now.state (place_of self.now.state account) }
    {
        match self.place(account) {
            Ok(place) => Reply::Figures(self.row(set, place).figures(set)),
            Err(why) => Reply::Refused(why),
        }
    }

    /// The day ends. It takes no memory.
    pub fn end(&mut self, set: &ParamSet) -> Result<(), StepFault>
        requires kept { IsKept set.now self.old }
        ensures kept { IsKept set.now self.new }
        ensures steps { Steps (ended self.old.state) result self.old self.new }
        ensures follows { OnOk result (FollowsPlan set.now Nothing self.old.rows self.new.rows) }
        ensures no_memory { result ≢ Err StepFault.Memory }
    {
        refuse_if(self.closed, Refusal::Closed)?;
        self.closed = true;
        Ok(())
    }
}

// What is answered where a change is done or refused. Want of memory is no answer.
fn answer_of(done: Result<(), StepFault>) -> Result<Reply, StepFault>
    ensures answer { result ≡ answer_of done }
    ensures brief { IfOk result (λ reply. is_brief reply ≡ true) }
{
    match done {
        Ok(()) => Ok(Reply::Done),
        Err(StepFault::Refused(why)) => Ok(Reply::Refused(why)),
        Err(StepFault::Memory) => Err(StepFault::Memory),
    }
}

/// One step of the machine under a set; where memory is refused, or a statement told, nothing has changed. What the
/// units of its plan require may be known before: where all of it is, nothing is worked out here. What the plan found
/// is not looked for again.
#[tactic(auto, using(crate::proofs::Answered::answered_by, crate::proofs::Following::leaves_by))]
pub fn step(
    register: &mut Register,
    alloc: Global,
    set: &ParamSet,
    command: &Command,
    plan: &Plan,
    known: &Known,
    work: &mut Work,
) -> Result<Reply, StepFault>
    requires kept { IsKept set.now register.old }
    requires plan { plan.now ≡ plan_of set.now register.old.state command.now }
    requires known { Foresees set.now register.old.rows
        (plan_of set.now register.old.state command.now) known.now }
    ensures kept { IsKept set.now register.new }
    ensures replies { Replies (step_under set.now register.old.state command.now) result register.old register.new }
    ensures nets { IfOk result (λ reply.
        LeavesNets set.now (plan_of set.now register.old.state command.now) reply register.old.rows register.new.rows) }
    ensures told { IfOk result (λ reply. is_brief reply ≡ false → register.new ≡ register.old) }
    ensures idle { IsIdle (plan_of set.now register.old.state command.now) known.now work.old work.new }
{
    match command {
        Command::NewOrigin(name, mode) => answer_of(register.originate(alloc, set, *name, *mode)),
        Command::NewAccount(name, origin) => answer_of(register.open(alloc, set, *name, *origin)),
        Command::Trade(trade) => answer_of(register.trade(alloc, set, trade, plan, known, work)),
        Command::Bust(account, lot) => answer_of(register.bust(
            alloc, set, *account, *lot, plan, known, work,
        )),
        Command::Hold(hold) => answer_of(register.hold(alloc, set, hold, plan, known, work)),
        Command::Fill(fill) => answer_of(register.fill(alloc, set, fill, plan, known, work)),
        Command::Release(account, order) => answer_of(register.release(
            alloc, set, *account, *order, plan, known, work,
        )),
        Command::Transfer(transfer) => answer_of(register.transfer(
            alloc, set, transfer, plan, known, work,
        )),
        Command::Post(account, class, units) => answer_of(register.post(
            set, *account, class, *units,
        )),
        Command::Draw(account, class, units) => answer_of(register.draw(
            set, *account, class, *units,
        )),
        Command::Ask(account) => Ok(register.ask(set, *account)),
        Command::Total(origin) => Ok(register.total(set, *origin)),
        Command::Statement(account) => register.answer_statement(alloc, set, *account),
        Command::EndDay => answer_of(register.end(set)),
    }
}
