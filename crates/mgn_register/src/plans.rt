ghost use Rattle.std.specs.Prelude.{◌≡◌, ◌≢◌, ◌<◌, length, IfErr, IfOk, Err, Ok, false, true};
ghost use Rattle.mgn_holds.specs.Holds.{covers, has_order, hold_at, is_full as holds_full};
ghost use Rattle.mgn_lots.specs.Lots.{has_number, is_full, is_live, lot_at};
ghost use Rattle.mgn_machine.specs.Holding.{fill_places, hold_places, release_places};
ghost use Rattle.mgn_machine.specs.Refusals.{bust_places, contract_of, is_over, trade_places};
ghost use Rattle.mgn_machine.specs.State.{account_at};
ghost use Rattle.mgn_machine.specs.Transfers.{move_places, quantity_in_unit};
ghost use Rattle.mgn_register.specs.BookStates.{IsKept};
ghost use Rattle.mgn_plan.specs.Plans.{IsPossible, bust_plan, fill_plan, hold_plan, in_unit_of, move_plan, both_plan, plan_of, release_plan, trade_plan};

use crate::holds::order_place;
use crate::register::{Register, lot_place};
use mgn_ids::{AccountName, LotId, OrderId};
use mgn_machine::{Command, Fill, Hold, Refusal, Trade, Transfer};
use mgn_params::ParamSet;
use mgn_plan::{Plan, UnitChange};
use mgn_unit::Change;

fn both(giver: UnitChange, taker: UnitChange) -> Plan
    ensures { result ≡ both_plan giver taker }
{
    if giver.unit == taker.unit {
        Plan::Nothing
    } else {
        Plan::Two(giver, taker)
    }
}

impl Register {
    // A change in the row of an account's unit.
    fn in_unit_of(&self, place: usize, change: Change) -> UnitChange
        requires { place < length self.now.state.accounts }
        ensures { result ≡ in_unit_of self.now.state place change }
    {
        UnitChange {
            account: place,
            unit: self.accounts[place].unit(),
            change,
        }
    }

    fn trade_plan(&self, set: &ParamSet, trade: &Trade) -> Plan
        requires { IsKept set.now self.now }
        ensures plan { result ≡ trade_plan self.now.state trade.now (trade_places set.now self.now.state trade.now) }
        ensures possible { IsPossible set.now self.now.rows result }
    {
        set.limits();
        let Ok((place, i)) = self.trade_places(set, trade) else {
            return Plan::Nothing;
        };
        Plan::One(self.in_unit_of(place, Change::of_lot(i, trade.quantity, trade.premium)))
    }

    // Where the account and the contract of a new lot stand, if it is not refused, by its plan.
    pub(crate) fn planned_trade(
        &self,
        set: &ParamSet,
        trade: &Trade,
        plan: &Plan,
    ) -> Result<(usize, usize), Refusal>
        requires kept { IsKept set.now self.now }
        requires plan { plan.now ≡
            trade_plan self.now.state trade.now (trade_places set.now self.now.state trade.now) }
        ensures places { result ≡ trade_places set.now self.now.state trade.now }
        ensures account { IfOk result (λ at. at.0 < length self.now.state.accounts) }
        ensures contract { IfOk result (λ at. at.1 < length set.now.contracts) }
        ensures stands { IfOk result (λ at. contract_of set.now trade.now.contract ≡ Ok at.1) }
        ensures fresh { IfOk result (λ at.
            has_number (account_at self.now.state.accounts at.0).lots trade.now.lot ≡ false) }
        ensures few { IfOk result (λ at. is_full (account_at self.now.state.accounts at.0).lots ≡ false) }
        ensures room { IfOk result (λ at.
            is_over self.now.state at.0 trade.now.contract trade.now.quantity ≡ false) }
    {
        match plan {
            Plan::One(found) => Ok((found.account, found.change.contract)),
            Plan::Nothing | Plan::Two(..) => self.trade_places(set, trade),
        }
    }

    // The same of a new hold.
    pub(crate) fn planned_hold(
        &self,
        set: &ParamSet,
        hold: &Hold,
        plan: &Plan,
    ) -> Result<(usize, usize), Refusal>
        requires kept { IsKept set.now self.now }
        requires plan { plan.now ≡
            hold_plan self.now.state hold.now (hold_places set.now self.now.state hold.now) }
        ensures places { result ≡ hold_places set.now self.now.state hold.now }
        ensures account { IfOk result (λ at. at.0 < length self.now.state.accounts) }
        ensures contract { IfOk result (λ at. at.1 < length set.now.contracts) }
        ensures stands { IfOk result (λ at. contract_of set.now hold.now.contract ≡ Ok at.1) }
        ensures fresh { IfOk result (λ at.
            has_order (account_at self.now.state.accounts at.0).holds hold.now.order ≡ false) }
        ensures few { IfOk result (λ at. holds_full (account_at self.now.state.accounts at.0).holds ≡ false) }
        ensures room { IfOk result (λ at.
            is_over self.now.state at.0 hold.now.contract hold.now.quantity ≡ false) }
    {
        match plan {
            Plan::One(found) => Ok((found.account, found.change.contract)),
            Plan::Nothing | Plan::Two(..) => self.hold_places(set, hold),
        }
    }

    fn bust_plan(&self, set: &ParamSet, account: AccountName, lot: LotId) -> Plan
        requires { IsKept set.now self.now }
        ensures plan { result ≡ bust_plan set.now self.now.state (bust_places self.now.state account lot) }
        ensures possible { IsPossible set.now self.now.rows result }
    {
        set.limits();
        let Ok((place, at)) = self.bust_places(account, lot) else {
            return Plan::Nothing;
        };
        let contract = self.contract_of_lot(set, place, at);
        let lot = self.accounts[place].lot_at(at);
        Plan::One(self.in_unit_of(place, Change::of_bust(contract, lot)))
    }

    fn hold_plan(&self, set: &ParamSet, hold: &Hold) -> Plan
        requires { IsKept set.now self.now }
        ensures plan { result ≡ hold_plan self.now.state hold.now (hold_places set.now self.now.state hold.now) }
        ensures possible { IsPossible set.now self.now.rows result }
    {
        set.limits();
        let Ok((place, i)) = self.hold_places(set, hold) else {
            return Plan::Nothing;
        };
        Plan::One(self.in_unit_of(place, Change::of_hold(i, hold.quantity, hold.limit)))
    }

    fn fill_plan(&self, set: &ParamSet, fill: &Fill) -> Plan
        requires { IsKept set.now self.now }
        ensures plan { result ≡ fill_plan set.now self.now.state fill.now (fill_places set.now self.now.state fill.now) }
        ensures possible { IsPossible set.now self.now.rows result }
    {
        set.limits();
        let Ok((place, hold)) = self.fill_places(set, fill) else {
            return Plan::Nothing;
        };
        let i = self.held_contract(set, place, hold);
        let limit = self.accounts[place].hold_at(hold).limit;
        let change = Change::of_fill(i, fill.quantity, limit, fill.premium);
        Plan::One(self.in_unit_of(place, change))
    }

    fn release_plan(&self, set: &ParamSet, account: AccountName, order: OrderId) -> Plan
        requires { IsKept set.now self.now }
        ensures plan { result ≡ release_plan set.now self.now.state (release_places self.now.state account order) }
        ensures possible { IsPossible set.now self.now.rows result }
    {
        set.limits();
        let Ok((place, hold)) = self.release_places(account, order) else {
            return Plan::Nothing;
        };
        let i = self.held_contract(set, place, hold);
        let held = self.accounts[place].hold_at(hold);
        Plan::One(self.in_unit_of(place, Change::of_release(i, held)))
    }

    fn move_plan(&self, set: &ParamSet, transfer: &Transfer) -> Plan
        requires { IsKept set.now self.now }
        ensures plan { result ≡ move_plan self.now.state transfer.now (move_places set.now self.now.state transfer.now) }
        ensures possible { IsPossible set.now self.now.rows result }
    {
        set.limits();
        let Ok((from, to, i)) = self.move_places(set, transfer) else {
            return Plan::Nothing;
        };
        let quantity = transfer.quantity.quantity();
        both(
            self.in_unit_of(from, Change::of_moved(i, quantity.negated())),
            self.in_unit_of(to, Change::of_moved(i, quantity)),
        )
    }

    // What the plan of a release found: where the account and the hold stand, and the hold's contract in the set, if it is
    // not refused.
    pub(crate) fn planned_release(
        &self,
        set: &ParamSet,
        account: AccountName,
        order: OrderId,
        plan: &Plan,
    ) -> Result<(usize, usize, usize), Refusal>
        requires kept { IsKept set.now self.now }
        requires plan { plan.now ≡
            release_plan set.now self.now.state (release_places self.now.state account order) }
        ensures places { IfOk result (λ at. Ok (at.0, at.1) ≡ release_places self.now.state account order) }
        ensures refused { IfErr result (λ why. Err why ≡ release_places self.now.state account order) }
        ensures account { IfOk result (λ at. at.0 < length self.now.state.accounts) }
        ensures hold { IfOk result (λ at. at.1 < length (account_at self.now.state.accounts at.0).holds) }
        ensures stands { IfOk result (λ at.
            contract_of set.now (hold_at (account_at self.now.state.accounts at.0).holds at.1).contract ≡ Ok at.2) }
        ensures within { IfOk result (λ at. at.2 < length set.now.contracts) }
    {
        match plan {
            Plan::One(found) => {
                let hold = order_place(&self.accounts[found.account], order)?;
                Ok((found.account, hold, found.change.contract))
            }
            Plan::Nothing | Plan::Two(..) => {
                let (place, hold) = self.release_places(account, order)?;
                Ok((place, hold, self.held_contract(set, place, hold)))
            }
        }
    }

    // The same of a fill.
    pub(crate) fn planned_fill(
        &self,
        set: &ParamSet,
        fill: &Fill,
        plan: &Plan,
    ) -> Result<(usize, usize, usize), Refusal>
        requires kept { IsKept set.now self.now }
        requires plan { plan.now ≡
            fill_plan set.now self.now.state fill.now (fill_places set.now self.now.state fill.now) }
        ensures places { IfOk result (λ at. Ok (at.0, at.1) ≡ fill_places set.now self.now.state fill.now) }
        ensures refused { IfErr result (λ why. Err why ≡ fill_places set.now self.now.state fill.now) }
        ensures account { IfOk result (λ at. at.0 < length self.now.state.accounts) }
        ensures hold { IfOk result (λ at. at.1 < length (account_at self.now.state.accounts at.0).holds) }
        ensures stands { IfOk result (λ at.
            contract_of set.now (hold_at (account_at self.now.state.accounts at.0).holds at.1).contract ≡ Ok at.2) }
        ensures within { IfOk result (λ at. at.2 < length set.now.contracts) }
        ensures fresh { IfOk result (λ at.
            has_number (account_at self.now.state.accounts at.0).lots fill.now.lot ≡ false) }
        ensures covers { IfOk result (λ at.
            covers (hold_at (account_at self.now.state.accounts at.0).holds at.1) fill.now.quantity ≡ true) }
        ensures few { IfOk result (λ at. is_full (account_at self.now.state.accounts at.0).lots ≡ false) }
    {
        match plan {
            Plan::One(found) => {
                let hold = order_place(&self.accounts[found.account], fill.order)?;
                Ok((found.account, hold, found.change.contract))
            }
            Plan::Nothing | Plan::Two(..) => {
                let (place, hold) = self.fill_places(set, fill)?;
                Ok((place, hold, self.held_contract(set, place, hold)))
            }
        }
    }

    // What the plan of a bust found: where the account and its lot stand, and the lot's contract in the set, if it can be
    // busted.
    pub(crate) fn planned_bust(
        &self,
        set: &ParamSet,
        account: AccountName,
        lot: LotId,
        plan: &Plan,
    ) -> Result<(usize, usize, usize), Refusal>
        requires kept { IsKept set.now self.now }
        requires plan { plan.now ≡
            bust_plan set.now self.now.state (bust_places self.now.state account lot) }
        ensures places { IfOk result (λ at. Ok (at.0, at.1) ≡ bust_places self.now.state account lot) }
        ensures refused { IfErr result (λ why. Err why ≡ bust_places self.now.state account lot) }
        ensures account { IfOk result (λ at. at.0 < length self.now.state.accounts) }
        ensures lot { IfOk result (λ at. at.1 < length (account_at self.now.state.accounts at.0).lots) }
        ensures live { IfOk result (λ at.
            is_live (lot_at (account_at self.now.state.accounts at.0).lots at.1).mark ≡ true) }
        ensures stands { IfOk result (λ at.
            contract_of set.now (lot_at (account_at self.now.state.accounts at.0).lots at.1).contract ≡ Ok at.2) }
        ensures within { IfOk result (λ at. at.2 < length set.now.contracts) }
    {
        match plan {
            Plan::One(found) => {
                let at = lot_place(&self.accounts[found.account], lot)?;
                Ok((found.account, at, found.change.contract))
            }
            Plan::Nothing | Plan::Two(..) => {
                let (place, at) = self.bust_places(account, lot)?;
                Ok((place, at, self.contract_of_lot(set, place, at)))
            }
        }
    }

    // What the plan of a transfer found: where the giver, the taker and the contract stand, if it is not refused; room is
    // not asked here.
    pub(crate) fn planned_move(
        &self,
        set: &ParamSet,
        transfer: &Transfer,
        plan: &Plan,
    ) -> Result<(usize, usize, usize), Refusal>
        requires kept { IsKept set.now self.now }
        requires plan { plan.now ≡
            move_plan self.now.state transfer.now (move_places set.now self.now.state transfer.now) }
        ensures places { result ≡ move_places set.now self.now.state transfer.now }
        ensures giver { IfOk result (λ at. at.0 < length self.now.state.accounts) }
        ensures taker { IfOk result (λ at. at.1 < length self.now.state.accounts) }
        ensures apart { IfOk result (λ at. at.1 ≢ at.0) }
        ensures stands { IfOk result (λ at. contract_of set.now transfer.now.contract ≡ Ok at.2) }
        ensures giver_fresh { IfOk result (λ at.
            has_number (account_at self.now.state.accounts at.0).lots transfer.now.lot ≡ false) }
        ensures taker_fresh { IfOk result (λ at.
            has_number (account_at self.now.state.accounts at.1).lots transfer.now.lot ≡ false) }
        ensures giver_few { IfOk result (λ at. is_full (account_at self.now.state.accounts at.0).lots ≡ false) }
        ensures taker_few { IfOk result (λ at. is_full (account_at self.now.state.accounts at.1).lots ≡ false) }
        ensures giver_room { IfOk result (λ at. is_over self.now.state at.0 transfer.now.contract
            (quantity_in_unit self.now.state at.0 at.1 transfer.now.quantity) ≡ false) }
        ensures taker_room { IfOk result (λ at. is_over self.now.state at.1 transfer.now.contract
            (quantity_in_unit self.now.state at.0 at.1 transfer.now.quantity) ≡ false) }
    {
        match plan {
            Plan::Two(given, taken) => Ok((given.account, taken.account, given.change.contract)),
            Plan::Nothing | Plan::One(_) => self.move_places(set, transfer),
        }
    }

    /// What a command changes in the rows of margin units, where nothing but want of room refuses it. The rows can
    /// change so. It takes no memory.
    pub fn plan(&self, set: &ParamSet, command: &Command) -> Plan
        requires { IsKept set.now self.now }
        ensures plan { result ≡ plan_of set.now self.now.state command.now }
        ensures possible { IsPossible set.now self.now.rows result }
    {
        match command {
            Command::Trade(trade) => self.trade_plan(set, trade),
            Command::Bust(account, lot) => self.bust_plan(set, *account, *lot),
            Command::Hold(hold) => self.hold_plan(set, hold),
            Command::Fill(fill) => self.fill_plan(set, fill),
            Command::Release(account, order) => self.release_plan(set, *account, *order),
            Command::Transfer(transfer) => self.move_plan(set, transfer),
            Command::NewOrigin(..)
            | Command::NewAccount(..)
            | Command::Post(..)
            | Command::Draw(..)
            | Command::Ask(_)
            | Command::Total(_)
            | Command::Statement(_)
            | Command::EndDay => Plan::Nothing,
        }
    }
}
