ghost use Rattle.std.specs.Prelude.{◌≡◌, ◌≢◌, ◌<◌, ◌≤◌, ◌*◌, ◌^◌, ◌==◌, ◌+ℤ◌, neg_ℤ, pos, unsigned_abs, slice_set, if◌then◌else◌, IfOk, IfSome, IsSome, OnOk, OnErr, Ok, false, length};
ghost use Rattle.mgn_lots.specs.Lots.{IsLot, has_number, is_full};
ghost use Rattle.mgn_machine.specs.Refusals.{contract_of, is_over};
ghost use Rattle.mgn_machine.specs.State.{account_at};
ghost use Rattle.mgn_machine.specs.Transfers.{moved, moved_lot, move_places, parties, quantity_in_unit};
ghost use Rattle.mgn_params.specs.Tables.{Tables};
ghost use Rattle.mgn_span.specs.Positions.{IsNet};
ghost use Rattle.mgn_span.specs.Scan.{value_at};
ghost use Rattle.mgn_unit.specs.Rows.{IsChange, IsRow, Priced, Prices, row_with, row_with_size};
ghost use Rattle.mgn_register.specs.BookStates.{IsKept, Steps};
ghost use Rattle.mgn_plan.specs.Plans.{FollowsPlan, Foresees, IsIdle, move_plan, row_at};
ghost use Rattle.mgn_register.specs.RoomAsked.{AsksRoom};
ghost use Rattle.mgn_register.specs.TransferRows.{AskBoth, TakesChange, TakesLot, party_of, with_both};

use crate::changes::price;
use crate::register::{Register, contract_of, passes_limit, refuse_if};
use crate::step_fault::StepFault;
use mgn_ids::{ContractName, LotId, LotQuantity, ShortId};
use mgn_lots::{Lot, Mark};
use mgn_machine::{Refusal, Transfer};
use mgn_num::Quantity;
use mgn_params::{ParamSet, Work};
use mgn_plan::{Known, Plan};
use mgn_unit::{Account, Change, Priced, Row, add_both};
use std::alloc::{AllocError, Global};

// What a transfer does to one of its two accounts.
#[derive(Drop)]
struct Party {
    // Where the account stands.
    place: usize,
    // Its margin unit.
    unit: usize,
    // Its moved lot.
    lot: Lot,
    // What that changes in the row of the unit.
    change: Change,
}

// A lot as it is moved.
fn moved_lot(number: LotId, contract: ContractName, quantity: Quantity) -> Lot
    requires some { 1 ≤ unsigned_abs quantity }
    requires most { unsigned_abs quantity ≤ 10 ^ 6 }
    ensures lot { result ≡ moved_lot number contract quantity }
    ensures limits { IsLot result }
{
    Lot {
        number: ShortId::of_lot(number),
        contract,
        quantity,
        premium: 0,
        mark: Mark::Moved,
    }
}

// The party of an account that gains a quantity of the contract, which stands at a place of the set.
fn party_of(
    owner: &Account,
    place: usize,
    contract: usize,
    transfer: &Transfer,
    quantity: Quantity,
) -> Party
    requires some { 1 ≤ unsigned_abs quantity }
    requires most { unsigned_abs quantity ≤ 10 ^ 6 }
    ensures party { result ≡ party_of owner.now place contract transfer.now quantity }
    ensures limits { IsLot result.lot }
    ensures possible { (set : Tables) → contract < length set.contracts → IsChange set result.change }
{
    Party {
        place,
        unit: owner.unit(),
        lot: moved_lot(transfer.lot, transfer.contract, quantity),
        change: Change::of_moved(contract, quantity),
    }
}

// What counts toward the limit of a unit: the quantity of a lot, twice where both accounts are of one unit.
fn quantity_in_unit(giver: &Account, taker: &Account, quantity: LotQuantity) -> Quantity
    ensures quantity { result ≡ (if giver.now.unit == taker.now.unit then quantity +ℤ quantity else quantity) }
    ensures small { unsigned_abs result ≤ 2 * 10 ^ 6 }
{
    let quantity = quantity.quantity();
    if giver.unit() == taker.unit() {
        quantity.plus(quantity)
    } else {
        quantity
    }
}

impl Register {
    // Where the giver and the taker stand, if neither they nor the number is refused.
    #[tactic(auto, unfolding(mgn_machine::specs::Transfers::parties))]
    fn parties(&self, transfer: &Transfer) -> Result<(usize, usize), Refusal>
        ensures parties { result ≡ parties self.now.state transfer.now }
        ensures giver { IfOk result (λ at. at.0 < length self.now.state.accounts) }
        ensures taker { IfOk result (λ at. at.1 < length self.now.state.accounts) }
        ensures apart { IfOk result (λ at. at.1 ≢ at.0) }
        ensures giver_fresh { IfOk result (λ at.
            has_number (account_at self.now.state.accounts at.0).lots transfer.now.lot ≡ false) }
        ensures taker_fresh { IfOk result (λ at.
            has_number (account_at self.now.state.accounts at.1).lots transfer.now.lot ≡ false) }
    {
        refuse_if(self.closed, Refusal::Closed)?;
        let giver = self.place(transfer.from)?;
        let taker = self.place(transfer.to)?;
        let taken = self.accounts[giver].has_lot(transfer.lot);
        refuse_if(taken, Refusal::Duplicate)?;
        let taken = self.accounts[taker].has_lot(transfer.lot);
        refuse_if(taken, Refusal::Duplicate)?;
        refuse_if(giver == taker, Refusal::Duplicate)?;
        Ok((giver, taker))
    }

    // Where the giver, the taker and the contract of a transfer stand, if it is not refused; room is not asked here.
    #[tactic(auto, unfolding(mgn_machine::specs::Transfers::move_places))]
    pub(crate) fn move_places(
        &self,
        set: &ParamSet,
        transfer: &Transfer,
    ) -> Result<(usize, usize, usize), Refusal>
        requires kept { IsKept set.now self.now }
        ensures places { result ≡ move_places set.now self.now.state transfer.now }
        ensures giver { IfOk result (λ at. at.0 < length self.now.state.accounts) }
        ensures taker { IfOk result (λ at. at.1 < length self.now.state.accounts) }
        ensures apart { IfOk result (λ at. at.1 ≢ at.0) }
        ensures stands { IfOk result (λ at. contract_of set.now transfer.now.contract ≡ Ok at.2) }
        ensures giver_fresh { IfOk result (λ at.
            has_number (account_at self.now.state.accounts at.0).lots transfer.now.lot ≡ false) }
        ensures taker_fresh { IfOk result (λ at.
            has_number (account_at self.now.state.accounts at.1).lots transfer.now.lot ≡ false) }
        ensures giver_few { IfOk result (λ at. is_full (account_at self.now.state.accounts at.0).lots ≡ false) }
        ensures taker_few { IfOk result (λ at. is_full (account_at self.now.state.accounts at.1).lots ≡ false) }
        ensures giver_room { IfOk result (λ at. is_over self.now.state at.0 transfer.now.contract
            (quantity_in_unit self.now.state at.0 at.1 transfer.now.quantity) ≡ false) }
        ensures taker_room { IfOk result (λ at. is_over self.now.state at.1 transfer.now.contract
            (quantity_in_unit self.now.state at.0 at.1 transfer.now.quantity) ≡ false) }
    {
        let (from, to) = self.parties(transfer)?;
        let i = contract_of(set, transfer.contract)?;
        let giver = &self.accounts[from];
        let taker = &self.accounts[to];
        refuse_if(giver.origin() != taker.origin(), Refusal::OtherOrigin)?;
        refuse_if(giver.is_full(), Refusal::Limit)?;
        refuse_if(taker.is_full(), Refusal::Limit)?;
        let more = quantity_in_unit(giver, taker, transfer.quantity);
        let size = self.unit_size(set, from, transfer.contract, i);
        refuse_if(passes_limit(size, more), Refusal::Limit)?;
        let size = self.unit_size(set, to, transfer.contract, i);
        refuse_if(passes_limit(size, more), Refusal::Limit)?;
        Ok((from, to, i))
    }

    /// A quantity of a contract goes from one account to another of its origin, where the units of both have room then.
    pub fn transfer(
        &mut self,
        alloc: Global,
        set: &ParamSet,
        transfer: &Transfer,
        plan: &Plan,
        known: &Known,
        work: &mut Work,
    ) -> Result<(), StepFault>
        requires kept { IsKept set.now self.old }
        requires plan { plan.now ≡
            move_plan self.old.state transfer.now (move_places set.now self.old.state transfer.now) }
        requires known { Foresees set.now self.old.rows
            (move_plan self.old.state transfer.now (move_places set.now self.old.state transfer.now)) known.now }
        ensures kept { IsKept set.now self.new }
        ensures steps { Steps (moved set.now self.old.state transfer.now) result self.old self.new }
        ensures follows { OnOk result (FollowsPlan set.now
            (move_plan self.old.state transfer.now (move_places set.now self.old.state transfer.now))
            self.old.rows self.new.rows) }
        ensures idle { IsIdle (move_plan self.old.state transfer.now (move_places set.now self.old.state transfer.now))
            known.now work.old work.new }
    {
        set.limits();
        let (from, to, i) = self.planned_move(set, transfer, plan)?;
        let quantity = transfer.quantity.quantity();
        let giver = party_of(&self.accounts[from], from, i, transfer, quantity.negated());
        let taker = party_of(&self.accounts[to], to, i, transfer, quantity);
        if giver.unit == taker.unit {
            return enter_within(set, &mut self.accounts, &mut self.rows, &giver, &taker);
        }
        enter_across(
            alloc,
            set,
            &mut self.accounts,
            &mut self.rows,
            &giver,
            &taker,
            known,
            work,
        )
    }
}

// Both lots in accounts of two units, and their changes in the rows of both, where those have room then; at an error
// nothing has changed.
fn enter_across(
    alloc: Global,
    set: &ParamSet,
    accounts: &mut [Account],
    rows: &mut [Row],
    giver: &Party,
    taker: &Party,
    known: &Known,
    work: &mut Work,
) -> Result<(), StepFault>
    requires given { TakesLot accounts.old giver.now }
    requires taken { TakesLot accounts.old taker.now }
    requires apart { taker.now.place ≢ giver.now.place }
    requires giver_known { IfSome known.now.first
        (Prices set.now giver.now.change (row_at set.now rows.old giver.now.unit)) }
    requires taker_known { IfSome known.now.second
        (Prices set.now taker.now.change (row_at set.now rows.old taker.now.unit)) }
    requires giver_changes { TakesChange set.now rows.old giver.now }
    requires taker_changes { TakesChange set.now rows.old taker.now }
    requires units { taker.now.unit ≢ giver.now.unit }
    ensures accounts { OnOk result (accounts.new ≡ with_both accounts.old giver.now taker.now) }
    ensures rows { OnOk result (
        let given = row_with set.now giver.now.change (row_at set.now rows.old giver.now.unit) in
        let taken = row_with set.now taker.now.change (row_at set.now rows.old taker.now.unit) in
        rows.new ≡ slice_set (slice_set rows.old giver.now.unit given) taker.now.unit taken) }
    ensures giver_priced { OnOk result ((priced : Priced)
        × Prices set.now giver.now.change (row_at set.now rows.old giver.now.unit) priced) }
    ensures taker_priced { OnOk result ((priced : Priced)
        × Prices set.now taker.now.change (row_at set.now rows.old taker.now.unit) priced) }
    ensures room { AskBoth (row_with set.now giver.now.change (row_at set.now rows.old giver.now.unit))
        (row_with set.now taker.now.change (row_at set.now rows.old taker.now.unit)) result }
    ensures same_accounts { OnErr result (accounts.new ≡ accounts.old) }
    ensures same_rows { OnErr result (rows.new ≡ rows.old) }
    ensures idle { IsSome known.now.first → IsSome known.now.second → work.new ≡ work.old }
{
    let given = price_party(alloc, set, rows, giver, &known.first, work)?;
    let taken = price_party(alloc, set, rows, taker, &known.second, work)?;
    add_lots(accounts, giver, taker)?;
    apply(set, rows, giver, &given);
    apply(set, rows, taker, &taken);
    Ok(())
}

// Both lots in accounts of one unit, of which no portfolio changes, where it has room; at an error nothing has changed.
fn enter_within(
    set: &ParamSet,
    accounts: &mut [Account],
    rows: &mut [Row],
    giver: &Party,
    taker: &Party,
) -> Result<(), StepFault>
    requires given { TakesLot accounts.old giver.now }
    requires taken { TakesLot accounts.old taker.now }
    requires apart { taker.now.place ≢ giver.now.place }
    requires inside { giver.now.unit < length rows.old }
    requires row { IsRow set.now (row_at set.now rows.old giver.now.unit) }
    requires contract { giver.now.change.contract < length set.now.contracts }
    requires sizes { IsNet (value_at (row_at set.now rows.old giver.now.unit).sizes giver.now.change.contract
        +ℤ (giver.now.change.size +ℤ taker.now.change.size)) }
    requires small { IsNet (giver.now.change.size +ℤ taker.now.change.size) }
    ensures accounts { OnOk result (accounts.new ≡ with_both accounts.old giver.now taker.now) }
    ensures rows { OnOk result (rows.new ≡ slice_set rows.old giver.now.unit
        (row_with_size giver.now.change.contract (giver.now.change.size +ℤ taker.now.change.size)
        (row_at set.now rows.old giver.now.unit))) }
    ensures room { AskBoth (row_at set.now rows.old giver.now.unit) (row_at set.now rows.old giver.now.unit) result }
    ensures same_accounts { OnErr result (accounts.new ≡ accounts.old) }
    ensures same_rows { OnErr result (rows.new ≡ rows.old) }
{
    if rows[giver.unit].lacks_room(set) {
        return Err(StepFault::Refused(Refusal::NoRoom));
    }
    add_lots(accounts, giver, taker)?;
    let size = giver.change.size.plus(taker.change.size);
    rows[giver.unit].add_size(giver.change.contract, size);
    Ok(())
}

// What the unit of a party requires with its lot, where it has room then. No row changes.
fn price_party(
    alloc: Global,
    set: &ParamSet,
    rows: &mut [Row],
    party: &Party,
    known: &Option<Priced>,
    work: &mut Work,
) -> Result<Priced, StepFault>
    requires party { TakesChange set.now rows.old party.now }
    requires known { IfSome known.now (Prices set.now party.now.change (row_at set.now rows.old party.now.unit)) }
    ensures same { rows.new ≡ rows.old }
    ensures priced { IfOk result (λ priced.
        Prices set.now party.now.change (row_at set.now rows.old party.now.unit) priced) }
    ensures room { AsksRoom (row_with set.now party.now.change (row_at set.now rows.old party.now.unit)) result }
    ensures idle { IsSome known.now → work.new ≡ work.old }
{
    let row = &mut rows[party.unit];
    let priced = price(alloc, set, row, &party.change, known, work)?;
    if row.lacks_room_after(set, &party.change, &priced) {
        return Err(StepFault::Refused(Refusal::NoRoom));
    }
    Ok(priced)
}

// The change of a party's lot in the row of its unit, which then requires what was worked out.
fn apply(set: &ParamSet, rows: &mut [Row], party: &Party, priced: &Priced)
    requires party { TakesChange set.now rows.old party.now }
    requires priced { Prices set.now party.now.change (row_at set.now rows.old party.now.unit) priced.now }
    ensures { rows.new ≡ slice_set rows.old party.now.unit
        (row_with set.now party.now.change (row_at set.now rows.old party.now.unit)) }
{
    rows[party.unit].apply(set, &party.change, priced);
}

// The lots of both parties in their accounts; where memory is refused nothing has changed.
fn add_lots(accounts: &mut [Account], giver: &Party, taker: &Party) -> Result<(), AllocError>
    requires given { TakesLot accounts.old giver.now }
    requires taken { TakesLot accounts.old taker.now }
    requires apart { taker.now.place ≢ giver.now.place }
    ensures added { OnOk result (accounts.new ≡ with_both accounts.old giver.now taker.now) }
    ensures same { OnErr result (accounts.new ≡ accounts.old) }
{
    if giver.place < taker.place {
        let (front, back) = accounts.split_at_mut(taker.place);
        add_both(
            &mut front[giver.place],
            &mut back[0],
            &giver.lot,
            &taker.lot,
        )
    } else {
        let (front, back) = accounts.split_at_mut(giver.place);
        add_both(
            &mut back[0],
            &mut front[taker.place],
            &giver.lot,
            &taker.lot,
        )
    }
}
