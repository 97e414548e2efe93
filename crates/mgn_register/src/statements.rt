ghost use Rattle.std.specs.Prelude.{◌≡◌, ◌<◌, IfOk, length};
ghost use Rattle.mgn_machine.specs.Refusals.{place_of};
ghost use Rattle.mgn_machine.specs.State.{account_at};
ghost use Rattle.mgn_machine.specs.Statements.{statement_of};
ghost use Rattle.mgn_machine.specs.Step.{stated};
ghost use Rattle.mgn_register.specs.BookStates.{IsKept, Replies, statement_found};

use crate::register::Register;
use crate::step_fault::StepFault;
use mgn_ids::AccountName;
use mgn_machine::{Reply, SharedStatement, Statement};
use mgn_params::ParamSet;
use mgn_statement::statement;
use std::alloc::{AllocError, Global};

impl Register {
    // The statement of the account at a place.
    #[tactic(auto, using(mgn_statement::proofs::ByRow::told_by_row))]
    fn statement_at(
        &self,
        alloc: Global,
        set: &ParamSet,
        place: usize,
    ) -> Result<Statement, AllocError>
        requires kept { IsKept set.now self.now }
        requires place { place < length self.now.state.accounts }
        ensures { IfOk result (λ told.
            told ≡ statement_of set.now self.now.state (account_at self.now.state.accounts place)) }
    {
        let owner = &self.accounts[place];
        let origin = &self.origins[owner.origin()];
        statement(
            alloc,
            set,
            self.version,
            origin,
            owner,
            self.row(set, place),
        )
    }

    /// The statement of an account, none where there is no such account. An error says that memory was refused.
    pub fn statement(
        &self,
        alloc: Global,
        set: &ParamSet,
        account: AccountName,
    ) -> Result<Option<Statement>, AllocError>
        requires kept { IsKept set.now self.now }
        ensures { IfOk result (λ told.
            told ≡ statement_found set.now self.now.state (place_of self.now.state account)) }
    {
        match self.place(account) {
            Ok(place) => Ok(Some(self.statement_at(alloc, set, place)?)),
            Err(_) => Ok(None),
        }
    }

    /// What is answered to the question for an account's statement. An error says that memory was refused.
    pub fn answer_statement(
        &self,
        alloc: Global,
        set: &ParamSet,
        account: AccountName,
    ) -> Result<Reply, StepFault>
        requires kept { IsKept set.now self.now }
        ensures { Replies (self.now.state, stated set.now self.now.state (place_of self.now.state account))
            result self.now self.now }
    {
        match self.place(account) {
            Ok(place) => {
                let told = self.statement_at(alloc, set, place)?;
                let shared = SharedStatement::new(alloc, told)?;
                Ok(Reply::Statement(shared))
            }
            Err(why) => Ok(Reply::Refused(why)),
        }
    }
}
