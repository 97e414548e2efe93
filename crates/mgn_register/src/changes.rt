ghost use Rattle.std.specs.Prelude.{◌≡◌, ◌≢◌, ◌<◌, ◌≤◌, ◌-ℤ◌, pos, Ok, Err, IfOk, IfSome, IsOk, IsSome, OnOk, OnErr, false, true, length};
ghost use Rattle.mgn_lots.specs.Lots.{has_number, is_full, IsLot, is_live, lot_at};
ghost use Rattle.mgn_machine.specs.State.{account_at, put, with_lot, with_bust, with_amount, traded_lot};
ghost use Rattle.mgn_coll.specs.Posted.{IsPosted, amount_of, most_of, value};
ghost use Rattle.mgn_unit.specs.Rows.{IsRow, IsChange, IsRoomy, Prices, Priced, row_with, row_with_worth};
ghost use Rattle.mgn_machine.specs.Step.{traded, undone, posted, drawn};
ghost use Rattle.mgn_machine.specs.Refusals.{bust_places, trade_places};
ghost use Rattle.mgn_register.specs.BookStates.{IsKept, Steps};
ghost use Rattle.mgn_plan.specs.Plans.{FollowsPlan, Foresees, IsIdle, KnowsAll, bust_plan, trade_plan};
ghost use Rattle.mgn_plan.specs.declared.plans.Plan.TheVariants.{Nothing};

use crate::register::Register;
use crate::step_fault::StepFault;
use mgn_ids::{AccountName, ClassName, ContractName, LotId, LotQuantity, Premium, ShortId, Units};
use mgn_lots::{Lot, Mark};
use mgn_machine::{Refusal, Trade};
use mgn_params::{ParamSet, Work};
use mgn_plan::{Known, Plan};
use mgn_unit::{Account, Change, Priced, Row};
use std::alloc::{AllocError, Global};

// A lot as it is traded.
pub(crate) fn traded_lot(
    number: LotId,
    contract: ContractName,
    quantity: LotQuantity,
    premium: Premium,
) -> Lot
    ensures lot { result ≡ traded_lot number contract quantity premium }
    ensures limits { IsLot result }
{
    Lot {
        number: ShortId::of_lot(number),
        contract,
        quantity: quantity.quantity(),
        premium: premium.cents(),
        mark: Mark::Traded,
    }
}

impl Register {
    /// A lot is traded.
    pub fn trade(
        &mut self,
        alloc: Global,
        set: &ParamSet,
        trade: &Trade,
        plan: &Plan,
        known: &Known,
        work: &mut Work,
    ) -> Result<(), StepFault>
        requires kept { IsKept set.now self.old }
        requires plan { plan.now ≡
            trade_plan self.old.state trade.now (trade_places set.now self.old.state trade.now) }
        requires known { Foresees set.now self.old.rows
            (trade_plan self.old.state trade.now (trade_places set.now self.old.state trade.now)) known.now }
        ensures kept { IsKept set.now self.new }
        ensures steps { Steps (traded set.now self.old.state trade.now) result self.old self.new }
        ensures follows { OnOk result (FollowsPlan set.now
            (trade_plan self.old.state trade.now (trade_places set.now self.old.state trade.now))
            self.old.rows self.new.rows) }
        ensures idle { IsIdle (trade_plan self.old.state trade.now (trade_places set.now self.old.state trade.now))
            known.now work.old work.new }
    {
        set.limits();
        let (place, i) = self.planned_trade(set, trade, plan)?;
        let change = Change::of_lot(i, trade.quantity, trade.premium);
        let lot = traded_lot(trade.lot, trade.contract, trade.quantity, trade.premium);
        let owner = &mut self.accounts[place];
        let row = &mut self.rows[owner.unit()];
        enter_lot(alloc, set, owner, row, &change, &lot, &known.first, work)?;
        Ok(())
    }

    /// A traded lot is busted. It takes no memory where it is known what its unit then requires.
    pub fn bust(
        &mut self,
        alloc: Global,
        set: &ParamSet,
        account: AccountName,
        number: LotId,
        plan: &Plan,
        known: &Known,
        work: &mut Work,
    ) -> Result<(), StepFault>
        requires kept { IsKept set.now self.old }
        requires plan { plan.now ≡
            bust_plan set.now self.old.state (bust_places self.old.state account number) }
        requires known { Foresees set.now self.old.rows
            (bust_plan set.now self.old.state (bust_places self.old.state account number)) known.now }
        ensures kept { IsKept set.now self.new }
        ensures steps { Steps (undone self.old.state account number) result self.old self.new }
        ensures follows { OnOk result (FollowsPlan set.now
            (bust_plan set.now self.old.state (bust_places self.old.state account number))
            self.old.rows self.new.rows) }
        ensures idle { IsIdle (bust_plan set.now self.old.state (bust_places self.old.state account number))
            known.now work.old work.new }
        ensures no_memory { KnowsAll (bust_plan set.now self.old.state (bust_places self.old.state account number)) known.now
            → result ≢ Err StepFault.Memory }
    {
        set.limits();
        let (place, at, contract) = self.planned_bust(set, account, number, plan)?;
        let owner = &mut self.accounts[place];
        let row = &mut self.rows[owner.unit()];
        let change = Change::of_bust(contract, owner.lot_at(at));
        bust_lot(alloc, set, owner, row, &change, at, &known.first, work)?;
        Ok(())
    }

    /// Cash or units of a class are posted.
    pub fn post(
        &mut self,
        set: &ParamSet,
        account: AccountName,
        class: &ClassName,
        units: Units,
    ) -> Result<(), StepFault>
        requires kept { IsKept set.now self.old }
        ensures kept { IsKept set.now self.new }
        ensures steps { Steps (posted set.now self.old.state account class.now units) result self.old self.new }
        ensures follows { OnOk result (FollowsPlan set.now Nothing self.old.rows self.new.rows) }
    {
        let (place, amount) = self.post_place(set, account, class, units)?;
        self.write_amount(set, place, class, amount)?;
        Ok(())
    }

    /// Cash or units of a class are drawn, where the unit has room without them. It takes no memory.
    pub fn draw(
        &mut self,
        set: &ParamSet,
        account: AccountName,
        class: &ClassName,
        units: Units,
    ) -> Result<(), StepFault>
        requires kept { IsKept set.now self.old }
        ensures kept { IsKept set.now self.new }
        ensures steps { Steps (drawn set.now self.old.state account class.now units) result self.old self.new }
        ensures follows { OnOk result (FollowsPlan set.now Nothing self.old.rows self.new.rows) }
        ensures no_memory { result ≢ Err StepFault.Memory }
    {
        let (place, amount) = self.draw_place(set, account, class, units)?;
        if self.lacks_room_with(set, place, class, amount) {
            return Err(StepFault::Refused(Refusal::NoRoom));
        }
        match self.write_amount(set, place, class, amount) {
            Ok(()) => Ok(()),
            Err(_) => unreachable!(),
        }
    }

    // Another amount of a class in an account and in the row of its unit; at an error nothing has changed.
    fn write_amount(
        &mut self,
        set: &ParamSet,
        place: usize,
        class: &ClassName,
        amount: u64,
    ) -> Result<(), AllocError>
        requires kept { IsKept set.now self.old }
        requires place { place < length self.old.state.accounts }
        requires most { amount ≤ most_of class.now }
        ensures kept { IsKept set.now self.new }
        ensures written { OnOk result (self.new.state ≡
            put self.old.state place (with_amount (account_at self.old.state.accounts place) class.now amount)) }
        ensures same { OnErr result (self.new ≡ self.old) }
        ensures follows { OnOk result (FollowsPlan set.now Nothing self.old.rows self.new.rows) }
        ensures posted { 1 ≤ amount_of class.now (account_at self.old.state.accounts place).collateral
            → IsOk result }
    {
        set.limits();
        let owner = &mut self.accounts[place];
        let row = &mut self.rows[owner.unit()];
        write_amount(set, owner, row, class, amount)?;
        Ok(())
    }
}

// What the portfolios of a unit require after a change, where it is not known yet. The row stays as it is.
pub(crate) fn price(
    alloc: Global,
    set: &ParamSet,
    row: &mut Row,
    change: &Change,
    known: &Option<Priced>,
    work: &mut Work,
) -> Result<Priced, AllocError>
    requires row { IsRow set.now row.old }
    requires change { IsChange set.now change.now }
    requires roomy { IsRoomy change.now row.old }
    requires known { IfSome known.now (Prices set.now change.now row.old) }
    ensures same { row.new ≡ row.old }
    ensures priced { IfOk result (Prices set.now change.now row.old) }
    ensures taken { IfSome known.now (λ it. result ≡ Ok it) }
    ensures idle { IsSome known.now → work.new ≡ work.old }
{
    match known {
        Some(priced) => Ok(*priced),
        None => row.priced_with(alloc, set, change, work),
    }
}

// A live lot of an account busted, and its change in the row of the unit; at an error nothing has changed in either.
fn bust_lot(
    alloc: Global,
    set: &ParamSet,
    owner: &mut Account,
    row: &mut Row,
    change: &Change,
    at: usize,
    known: &Option<Priced>,
    work: &mut Work,
) -> Result<(), AllocError>
    requires known { IfSome known.now (Prices set.now change.now row.old) }
    requires row { IsRow set.now row.old }
    requires change { IsChange set.now change.now }
    requires roomy { IsRoomy change.now row.old }
    requires lot { at < length owner.old.lots }
    requires live { is_live (lot_at owner.old.lots at).mark ≡ true }
    ensures busted { OnOk result (owner.new ≡ with_bust owner.old at) }
    ensures changed { OnOk result (row.new ≡ row_with set.now change.now row.old) }
    ensures priced { OnOk result ((priced : Priced) × Prices set.now change.now row.old priced) }
    ensures same_account { OnErr result (owner.new ≡ owner.old) }
    ensures same_row { OnErr result (row.new ≡ row.old) }
    ensures done { IsSome known.now → IsOk result }
    ensures idle { IsSome known.now → work.new ≡ work.old }
{
    let priced = price(alloc, set, row, change, known, work)?;
    owner.bust(at);
    row.apply(set, change, &priced);
    Ok(())
}

// Another amount of a class in an account, and what the row of its unit gains by it; at an error nothing has changed
// in either.
fn write_amount(
    set: &ParamSet,
    owner: &mut Account,
    row: &mut Row,
    class: &ClassName,
    amount: u64,
) -> Result<(), AllocError>
    requires row { IsRow set.now row.old }
    requires amount { amount ≤ most_of class.now }
    ensures written { OnOk result (owner.new ≡ with_amount owner.old class.now amount) }
    ensures limits { OnOk result (IsPosted owner.new.collateral.cash owner.new.collateral.units) }
    ensures gained { OnOk result (
        let before = pos (value set.now.classes owner.old.collateral) in
        let after = pos (value set.now.classes owner.new.collateral) in
        row.new ≡ row_with_worth (after -ℤ before) row.old) }
    ensures same_account { OnErr result (owner.new ≡ owner.old) }
    ensures same_row { OnErr result (row.new ≡ row.old) }
    ensures posted { 1 ≤ amount_of class.now owner.old.collateral → IsOk result }
{
    let before = owner.collateral_value(set);
    owner.write_amount(class, amount)?;
    let after = owner.collateral_value(set);
    row.gain_worth(set, after.minus(before));
    Ok(())
}

// A lot more in an account, and its change in the row of the unit; at an error nothing has changed in either.
fn enter_lot(
    alloc: Global,
    set: &ParamSet,
    owner: &mut Account,
    row: &mut Row,
    change: &Change,
    lot: &Lot,
    known: &Option<Priced>,
    work: &mut Work,
) -> Result<(), AllocError>
    requires known { IfSome known.now (Prices set.now change.now row.old) }
    requires row { IsRow set.now row.old }
    requires change { IsChange set.now change.now }
    requires roomy { IsRoomy change.now row.old }
    requires lot { IsLot lot.now }
    requires fresh { has_number owner.old.lots lot.now.number ≡ false }
    requires few { is_full owner.old.lots ≡ false }
    ensures added { OnOk result (owner.new ≡ with_lot owner.old lot.now) }
    ensures changed { OnOk result (row.new ≡ row_with set.now change.now row.old) }
    ensures priced { OnOk result ((priced : Priced) × Prices set.now change.now row.old priced) }
    ensures same_account { OnErr result (owner.new ≡ owner.old) }
    ensures same_row { OnErr result (row.new ≡ row.old) }
    ensures idle { IsSome known.now → work.new ≡ work.old }
{
    let priced = price(alloc, set, row, change, known, work)?;
    owner.add_lot(lot)?;
    row.apply(set, change, &priced);
    Ok(())
}
