ghost use Rattle.std.specs.Prelude.{◌≡◌, ◌≢◌, ◌<◌, ◌≤◌, ◌^◌, IfOk, IfErr, IfSome, IsOk, IsSome, OnOk, OnErr, Ok, Err, false, true, length};
ghost use Rattle.mgn_params.specs.Limits.{IsWithinLimits};
ghost use Rattle.mgn_lots.specs.Lots.{IsLot, has_number, is_full};
ghost use Rattle.mgn_holds.specs.Holds.{IsHeld, has_order, hold_at, place_of_order, is_full as holds_full, covers, meets_limit};
ghost use Rattle.mgn_machine.specs.State.{account_at};
ghost use Rattle.mgn_machine.specs.Refusals.{contract_of, is_over, found};
ghost use Rattle.mgn_unit.specs.Rows.{IsRow, IsChange, IsRoomy, Prices, Priced, row_with};
ghost use Rattle.mgn_machine.specs.Holding.{entered, filled, released, hold_places, fill_places, release_places, new_hold, with_hold, without_hold, with_fill, premium_fits_at};
ghost use Rattle.mgn_register.specs.BookStates.{IsKept, Steps};
ghost use Rattle.mgn_plan.specs.Plans.{FollowsPlan, Foresees, IsIdle, KnowsAll, fill_plan, hold_plan, release_plan};
ghost use Rattle.mgn_register.specs.RoomAsked.{AsksRoom};

use crate::changes::{price, traded_lot};
use crate::register::{Register, contract_of, is_over, known_contract, premium_fits, refuse_if};
use crate::step_fault::StepFault;
use mgn_holds::Held;
use mgn_ids::{AccountName, OrderId, Premium};
use mgn_lots::Lot;
use mgn_machine::{Fill, Hold, Refusal};
use mgn_params::{ParamSet, Work};
use mgn_plan::{Known, Plan};
use mgn_unit::{Account, Change, Priced, Row};
use std::alloc::{AllocError, Global};

// An order as it is entered.
fn new_hold(hold: &Hold) -> Held
    ensures held { result ≡ new_hold hold.now }
    ensures limits { IsHeld result }
{
    Held {
        order: hold.order,
        contract: hold.contract,
        quantity: hold.quantity.quantity(),
        limit: hold.limit.cents(),
    }
}

// Where the hold of an order stands.
pub(crate) fn order_place(owner: &Account, order: OrderId) -> Result<usize, Refusal>
    ensures place { result ≡ found (place_of_order owner.now.holds order) Refusal.NoOrder }
    ensures within { IfOk result (λ j. j < length owner.now.holds) }
{
    owner.order_place(order).ok_or(Refusal::NoOrder)
}

// A premium other than 0 is for options of the premium style alone, by the place of their contract.
fn premium_fits_at(set: &ParamSet, place: Result<usize, Refusal>, premium: Premium) -> bool
    requires { IfOk place (λ i. i < length set.now.contracts) }
    ensures { result ≡ premium_fits_at set.now place premium }
{
    match place {
        Ok(i) => premium_fits(set, i, premium),
        Err(_) => premium.cents() == 0,
    }
}

impl Register {
    // Where the account and the contract of a new hold stand, if it is not refused; its room is not asked here.
    #[tactic(auto, unfolding(mgn_machine::specs::Holding::hold_places))]
    pub(crate) fn hold_places(&self, set: &ParamSet, hold: &Hold) -> Result<(usize, usize), Refusal>
        requires kept { IsKept set.now self.now }
        ensures places { result ≡ hold_places set.now self.now.state hold.now }
        ensures account { IfOk result (λ at. at.0 < length self.now.state.accounts) }
        ensures contract { IfOk result (λ at. at.1 < length set.now.contracts) }
        ensures stands { IfOk result (λ at. contract_of set.now hold.now.contract ≡ Ok at.1) }
        ensures fresh { IfOk result (λ at.
            has_order (account_at self.now.state.accounts at.0).holds hold.now.order ≡ false) }
        ensures few { IfOk result (λ at. holds_full (account_at self.now.state.accounts at.0).holds ≡ false) }
        ensures room { IfOk result (λ at.
            is_over self.now.state at.0 hold.now.contract hold.now.quantity ≡ false) }
    {
        refuse_if(self.closed, Refusal::Closed)?;
        let place = self.place(hold.account)?;
        let owner = &self.accounts[place];
        refuse_if(owner.has_order(hold.order), Refusal::Duplicate)?;
        let i = contract_of(set, hold.contract)?;
        refuse_if(!premium_fits(set, i, hold.limit), Refusal::Premium)?;
        refuse_if(owner.holds_full(), Refusal::Limit)?;
        let size = self.unit_size(set, place, hold.contract, i);
        refuse_if(is_over(size, hold.quantity), Refusal::Limit)?;
        Ok((place, i))
    }

    // Where the account stands and the hold that is released, if that is not refused.
    #[tactic(auto, unfolding(mgn_machine::specs::Holding::release_places))]
    pub(crate) fn release_places(
        &self,
        account: AccountName,
        order: OrderId,
    ) -> Result<(usize, usize), Refusal>
        ensures places { result ≡ release_places self.now.state account order }
        ensures account { IfOk result (λ at. at.0 < length self.now.state.accounts) }
        ensures hold { IfOk result (λ at. at.1 < length (account_at self.now.state.accounts at.0).holds) }
    {
        refuse_if(self.closed, Refusal::Closed)?;
        let place = self.place(account)?;
        let hold = order_place(&self.accounts[place], order)?;
        Ok((place, hold))
    }

    // Where the contract of a hold stands in the set, which has it.
    pub(crate) fn held_contract(&self, set: &ParamSet, place: usize, hold: usize) -> usize
        requires kept { IsKept set.now self.now }
        requires account { place < length self.now.state.accounts }
        requires hold { hold < length (account_at self.now.state.accounts place).holds }
        ensures stands { contract_of set.now (hold_at (account_at self.now.state.accounts place).holds hold).contract
            ≡ Ok result }
        ensures within { result < length set.now.contracts }
    {
        known_contract(set, self.accounts[place].hold_at(hold).contract)
    }

    /// Room is held for an order.
    pub fn hold(
        &mut self,
        alloc: Global,
        set: &ParamSet,
        hold: &Hold,
        plan: &Plan,
        known: &Known,
        work: &mut Work,
    ) -> Result<(), StepFault>
        requires kept { IsKept set.now self.old }
        requires plan { plan.now ≡
            hold_plan self.old.state hold.now (hold_places set.now self.old.state hold.now) }
        requires known { Foresees set.now self.old.rows
            (hold_plan self.old.state hold.now (hold_places set.now self.old.state hold.now)) known.now }
        ensures kept { IsKept set.now self.new }
        ensures steps { Steps (entered set.now self.old.state hold.now) result self.old self.new }
        ensures follows { OnOk result (FollowsPlan set.now
            (hold_plan self.old.state hold.now (hold_places set.now self.old.state hold.now))
            self.old.rows self.new.rows) }
        ensures idle { IsIdle (hold_plan self.old.state hold.now (hold_places set.now self.old.state hold.now))
            known.now work.old work.new }
    {
        set.limits();
        let (place, i) = self.planned_hold(set, hold, plan)?;
        let change = Change::of_hold(i, hold.quantity, hold.limit);
        let held = new_hold(hold);
        let owner = &mut self.accounts[place];
        let row = &mut self.rows[owner.unit()];
        enter_hold(alloc, set, owner, row, &change, &held, &known.first, work)?;
        Ok(())
    }

    // Where the account stands and the hold that is filled, if it is not refused.
    #[tactic(auto, unfolding(mgn_machine::specs::Holding::fill_places))]
    pub(crate) fn fill_places(&self, set: &ParamSet, fill: &Fill) -> Result<(usize, usize), Refusal>
        ensures places { result ≡ fill_places set.now self.now.state fill.now }
        ensures account { IfOk result (λ at. at.0 < length self.now.state.accounts) }
        ensures hold { IfOk result (λ at. at.1 < length (account_at self.now.state.accounts at.0).holds) }
        ensures fresh { IfOk result (λ at.
            has_number (account_at self.now.state.accounts at.0).lots fill.now.lot ≡ false) }
        ensures covers { IfOk result (λ at.
            covers (hold_at (account_at self.now.state.accounts at.0).holds at.1) fill.now.quantity ≡ true) }
        ensures few { IfOk result (λ at. is_full (account_at self.now.state.accounts at.0).lots ≡ false) }
    {
        refuse_if(self.closed, Refusal::Closed)?;
        let place = self.place(fill.account)?;
        let owner = &self.accounts[place];
        refuse_if(owner.has_lot(fill.lot), Refusal::Duplicate)?;
        let hold = order_place(owner, fill.order)?;
        let held = owner.hold_at(hold);
        refuse_if(!held.meets_limit(fill.premium.cents()), Refusal::Premium)?;
        let i = contract_of(set, held.contract);
        refuse_if(!premium_fits_at(set, i, fill.premium), Refusal::Premium)?;
        refuse_if(!held.covers(fill.quantity.quantity()), Refusal::Over)?;
        refuse_if(owner.is_full(), Refusal::Limit)?;
        Ok((place, hold))
    }

    /// A held order is filled, in part or whole.
    pub fn fill(
        &mut self,
        alloc: Global,
        set: &ParamSet,
        fill: &Fill,
        plan: &Plan,
        known: &Known,
        work: &mut Work,
    ) -> Result<(), StepFault>
        requires kept { IsKept set.now self.old }
        requires plan { plan.now ≡
            fill_plan set.now self.old.state fill.now (fill_places set.now self.old.state fill.now) }
        requires known { Foresees set.now self.old.rows
            (fill_plan set.now self.old.state fill.now (fill_places set.now self.old.state fill.now)) known.now }
        ensures kept { IsKept set.now self.new }
        ensures steps { Steps (filled set.now self.old.state fill.now) result self.old self.new }
        ensures follows { OnOk result (FollowsPlan set.now
            (fill_plan set.now self.old.state fill.now (fill_places set.now self.old.state fill.now))
            self.old.rows self.new.rows) }
        ensures idle { IsIdle (fill_plan set.now self.old.state fill.now (fill_places set.now self.old.state fill.now))
            known.now work.old work.new }
    {
        set.limits();
        let (place, hold, i) = self.planned_fill(set, fill, plan)?;
        let owner = &mut self.accounts[place];
        let held = *owner.hold_at(hold);
        let change = Change::of_fill(i, fill.quantity, held.limit, fill.premium);
        let lot = traded_lot(fill.lot, held.contract, fill.quantity, fill.premium);
        let row = &mut self.rows[owner.unit()];
        fill_hold(
            alloc,
            set,
            owner,
            row,
            &change,
            hold,
            &lot,
            &known.first,
            work,
        )?;
        Ok(())
    }

    /// An order is held no more. It takes no memory where it is known what its unit then requires.
    pub fn release(
        &mut self,
        alloc: Global,
        set: &ParamSet,
        account: AccountName,
        order: OrderId,
        plan: &Plan,
        known: &Known,
        work: &mut Work,
    ) -> Result<(), StepFault>
        requires kept { IsKept set.now self.old }
        requires plan { plan.now ≡
            release_plan set.now self.old.state (release_places self.old.state account order) }
        requires known { Foresees set.now self.old.rows
            (release_plan set.now self.old.state (release_places self.old.state account order)) known.now }
        ensures kept { IsKept set.now self.new }
        ensures steps { Steps (released self.old.state account order) result self.old self.new }
        ensures follows { OnOk result (FollowsPlan set.now
            (release_plan set.now self.old.state (release_places self.old.state account order))
            self.old.rows self.new.rows) }
        ensures idle { IsIdle (release_plan set.now self.old.state (release_places self.old.state account order))
            known.now work.old work.new }
        ensures no_memory { KnowsAll (release_plan set.now self.old.state (release_places self.old.state account order)) known.now
            → result ≢ Err StepFault.Memory }
    {
        set.limits();
        let (place, hold, i) = self.planned_release(set, account, order, plan)?;
        let owner = &mut self.accounts[place];
        let change = Change::of_release(i, owner.hold_at(hold));
        let row = &mut self.rows[owner.unit()];
        release_hold(alloc, set, owner, row, &change, hold, &known.first, work)?;
        Ok(())
    }
}

// A hold more in an account, and its change in the row of the unit, where that has room for it; at an error nothing has
// changed in either.
fn enter_hold(
    alloc: Global,
    set: &ParamSet,
    owner: &mut Account,
    row: &mut Row,
    change: &Change,
    held: &Held,
    known: &Option<Priced>,
    work: &mut Work,
) -> Result<(), StepFault>
    requires known { IfSome known.now (Prices set.now change.now row.old) }
    requires row { IsRow set.now row.old }
    requires change { IsChange set.now change.now }
    requires roomy { IsRoomy change.now row.old }
    requires held { IsHeld held.now }
    requires fresh { has_order owner.old.holds held.now.order ≡ false }
    requires few { holds_full owner.old.holds ≡ false }
    ensures added { OnOk result (owner.new ≡ with_hold owner.old held.now) }
    ensures changed { OnOk result (row.new ≡ row_with set.now change.now row.old) }
    ensures priced { OnOk result ((priced : Priced) × Prices set.now change.now row.old priced) }
    ensures room { AsksRoom (row_with set.now change.now row.old) result }
    ensures same_account { OnErr result (owner.new ≡ owner.old) }
    ensures same_row { OnErr result (row.new ≡ row.old) }
    ensures idle { IsSome known.now → work.new ≡ work.old }
{
    let priced = price(alloc, set, row, change, known, work)?;
    if row.lacks_room_after(set, change, &priced) {
        return Err(StepFault::Refused(Refusal::NoRoom));
    }
    owner.add_hold(held)?;
    row.apply(set, change, &priced);
    Ok(())
}

// A hold less in an account, and its change in the row of the unit; at an error nothing has changed in either.
fn release_hold(
    alloc: Global,
    set: &ParamSet,
    owner: &mut Account,
    row: &mut Row,
    change: &Change,
    hold: usize,
    known: &Option<Priced>,
    work: &mut Work,
) -> Result<(), AllocError>
    requires known { IfSome known.now (Prices set.now change.now row.old) }
    requires row { IsRow set.now row.old }
    requires change { IsChange set.now change.now }
    requires roomy { IsRoomy change.now row.old }
    requires hold { hold < length owner.old.holds }
    ensures released { OnOk result (owner.new ≡ without_hold owner.old hold) }
    ensures changed { OnOk result (row.new ≡ row_with set.now change.now row.old) }
    ensures priced { OnOk result ((priced : Priced) × Prices set.now change.now row.old priced) }
    ensures same_account { OnErr result (owner.new ≡ owner.old) }
    ensures same_row { OnErr result (row.new ≡ row.old) }
    ensures done { IsSome known.now → IsOk result }
    ensures idle { IsSome known.now → work.new ≡ work.old }
{
    let priced = price(alloc, set, row, change, known, work)?;
    owner.release(hold);
    row.apply(set, change, &priced);
    Ok(())
}

// A lot more in an account and as much off the hold that it fills, and the change of both in the row of the unit; at an
// error nothing has changed in either.
fn fill_hold(
    alloc: Global,
    set: &ParamSet,
    owner: &mut Account,
    row: &mut Row,
    change: &Change,
    hold: usize,
    lot: &Lot,
    known: &Option<Priced>,
    work: &mut Work,
) -> Result<(), AllocError>
    requires known { IfSome known.now (Prices set.now change.now row.old) }
    requires row { IsRow set.now row.old }
    requires change { IsChange set.now change.now }
    requires roomy { IsRoomy change.now row.old }
    requires lot { IsLot lot.now }
    requires fresh { has_number owner.old.lots lot.now.number ≡ false }
    requires few { is_full owner.old.lots ≡ false }
    requires hold { hold < length owner.old.holds }
    requires covers { covers (hold_at owner.old.holds hold) lot.now.quantity ≡ true }
    ensures filled { OnOk result (owner.new ≡ with_fill owner.old hold lot.now) }
    ensures changed { OnOk result (row.new ≡ row_with set.now change.now row.old) }
    ensures priced { OnOk result ((priced : Priced) × Prices set.now change.now row.old priced) }
    ensures same_account { OnErr result (owner.new ≡ owner.old) }
    ensures same_row { OnErr result (row.new ≡ row.old) }
    ensures idle { IsSome known.now → work.new ≡ work.old }
{
    let priced = price(alloc, set, row, change, known, work)?;
    owner.fill(hold, lot)?;
    row.apply(set, change, &priced);
    Ok(())
}
