ghost use Rattle.std.specs.Prelude.{◌≡◌, ◌<◌, ◌≤◌, ◌≤ℤ◌, ◌+ℤ◌, ◌*◌, ◌^◌, ◌==◌, ◌||◌, IfOk, IfSome, OnOk, Ok, [], length, pos, false, true, unsigned_abs, int_lt};
ghost use Rattle.mgn_params.specs.Tables.{Tables, contract_at};
ghost use Rattle.mgn_lots.specs.Lots.{has_number, is_busted, is_full, is_live, is_moved, lot_at, place_of_lot};
ghost use Rattle.mgn_machine.specs.declared.reply.Refusal.TheVariants.{NoTrade};
ghost use Rattle.mgn_machine.specs.State.{account_at, put, with_amount};
ghost use Rattle.mgn_machine.specs.Refusals.{place_of, contract_of, has_contract, premium_fits, found, refuse_if, is_over, trade_places, bust_places, post_place, draw_place};
ghost use Rattle.mgn_machine.specs.Portfolios.{account_size, unit_sum};
ghost use Rattle.mgn_coll.specs.Posted.{amount_of, most_of};
ghost use Rattle.mgn_span.specs.Positions.{IsNet};
ghost use Rattle.mgn_machine.specs.Room.{unit_room};
ghost use Rattle.mgn_unit.specs.Rows.{row_of, IsRow};
ghost use Rattle.mgn_register.specs.BookStates.{IsKept, account_unit, book_state};

use mgn_coll::{is_known, most_of};
use mgn_ids::{AccountName, ClassName, ContractName, LotId, LotQuantity, Places, Premium, Units};
use mgn_lots::Mark;
use mgn_machine::{Origin, Refusal, Trade};
use mgn_num::Quantity;
use mgn_params::{ParamSet, Version};
use mgn_unit::{Account, Row};
use std::alloc::Global;
use std::marker::Model;

/// How much the live lots and holds of a unit may come to in one contract.
const MOST_SIZE: i64 = 10_000_000;

/// The state of the machine with a row for each margin unit.
#[derive(Drop)]
pub struct Register {
    pub(crate) origins: Vec<Origin>,
    pub(crate) names: Places<AccountName>,
    pub(crate) accounts: Vec<Account>,
    pub(crate) rows: Vec<Row>,
    pub(crate) closed: bool,
    pub(crate) version: Version,
}

impl Model for Register {
    ghost use Rattle.std.specs.Prelude.{◌≡◌};
    ghost use Rattle.mgn_register.specs.BookStates.{BookState, book_state};
    ghost use Rattle.mgn_machine.specs.Refusals.{account_names};

    ghost Value = { BookState };

    ghost view = { λ r. book_state r.origins.items r.accounts.items r.rows.items r.closed r.version };

    ghost invariant = { λ r. r.names ≡ account_names r.accounts.items };
}

/// Refuses where the test holds.
#[tactic(auto, unfolding(mgn_machine::specs::Refusals::refuse_if))]
pub(crate) fn refuse_if(test: bool, why: Refusal) -> Result<(), Refusal>
    ensures refused { result ≡ refuse_if test why }
    ensures passes { OnOk result (test ≡ false) }
{
    if test { Err(why) } else { Ok(()) }
}

// Where a contract stands in the set.
#[tactic(auto, unfolding(mgn_machine::specs::Refusals::contract_of))]
pub(crate) fn contract_of(set: &ParamSet, contract: ContractName) -> Result<usize, Refusal>
    ensures place { result ≡ contract_of set.now contract }
    ensures within { IfOk result (λ i. i < length set.now.contracts) }
{
    set.contract(contract).ok_or(Refusal::NoContract)
}

// Where a contract stands that the set has.
pub(crate) fn known_contract(set: &ParamSet, contract: ContractName) -> usize
    requires { has_contract set.now contract ≡ true }
    ensures stands { contract_of set.now contract ≡ Ok result }
    ensures within { result < length set.now.contracts }
{
    match contract_of(set, contract) {
        Ok(place) => place,
        Err(_) => unreachable!(),
    }
}

// A premium other than 0 is for options of the premium style alone.
pub(crate) fn premium_fits(set: &ParamSet, contract: usize, premium: Premium) -> bool
    requires { contract < length set.now.contracts }
    ensures { result ≡ premium_fits set.now contract premium }
{
    premium.cents() == 0 || set.contract_at(contract).style.is_premium()
}

// Where the lot of a number stands among the lots of an account.
pub(crate) fn lot_place(owner: &Account, number: LotId) -> Result<usize, Refusal>
    ensures place { result ≡ found (place_of_lot owner.now.lots number) NoTrade }
    ensures within { IfOk result (λ i. i < length owner.now.lots) }
{
    owner.lot_place(number).ok_or(Refusal::NoTrade)
}

fn is_busted(mark: Mark) -> bool
    ensures { result ≡ is_busted mark }
{
    matches!(&mark, Mark::Busted)
}

fn is_moved(mark: Mark) -> bool
    ensures { result ≡ is_moved mark }
{
    matches!(&mark, Mark::Moved)
}

impl Register {
    /// The machine before its first command, under a version. Takes no memory.
    pub fn new(alloc: Global, version: Version) -> Register
        ensures empty { result ≡ book_state [] [] [] false version }
    {
        Register {
            origins: Vec::new(alloc),
            names: Places::new(alloc),
            accounts: Vec::new(alloc),
            rows: Vec::new(alloc),
            closed: false,
            version,
        }
    }

    /// The version of the set in force.
    pub fn version(&self) -> Version
        ensures { result ≡ self.now.state.version }
    {
        self.version
    }

    /// The rows of all units, in order of their numbers.
    pub fn rows(&self) -> &[Row]
        ensures { result.now ≡ self.now.rows }
    {
        self.rows.as_slice()
    }

    // Where an account stands.
    #[tactic(auto, unfolding(mgn_machine::specs::Refusals::place_of))]
    pub(crate) fn place(&self, account: AccountName) -> Result<usize, Refusal>
        ensures place { result ≡ place_of self.now.state account }
        ensures within { IfOk result (λ k. k < length self.now.state.accounts) }
    {
        self.names.place(account).ok_or(Refusal::NoAccount)
    }

    /// The number of an account's margin unit, none where there is no such account. It takes no memory.
    pub fn unit_of(&self, account: AccountName) -> Option<usize>
        ensures unit { result ≡ account_unit self.now.state (place_of self.now.state account) }
        ensures within { (set : Tables) → IsKept set self.now → IfSome result (λ u. u < length self.now.rows) }
    {
        match self.place(account) {
            Ok(place) => Some(self.accounts[place].unit()),
            Err(_) => None,
        }
    }

    // The row of an account's unit.
    pub(crate) fn row(&self, set: &ParamSet, place: usize) -> &Row
        requires kept { IsKept set.now self.now }
        requires place { place < length self.now.state.accounts }
        ensures row { result.now ≡
            row_of set.now self.now.state.accounts (account_at self.now.state.accounts place).unit }
        ensures limits { IsRow set.now result.now }
    {
        let unit = self.accounts[place].unit();
        &self.rows[unit]
    }

    // How much the live lots and holds of an account's unit come to in a contract.
    pub(crate) fn unit_size(
        &self,
        set: &ParamSet,
        place: usize,
        name: ContractName,
        contract: usize,
    ) -> Quantity
        requires kept { IsKept set.now self.now }
        requires place { place < length self.now.state.accounts }
        requires contract { contract_of set.now name ≡ Ok contract }
        ensures size { result ≡
            unit_sum (account_at self.now.state.accounts place).unit (account_size name) self.now.state.accounts }
        ensures limit { IsNet result }
    {
        set.limits();
        self.row(set, place).sizes.at(contract)
    }

    // Where the account and the contract of a new lot stand, if it is not refused.
    #[tactic(auto, unfolding(mgn_machine::specs::Refusals::trade_places))]
    pub(crate) fn trade_places(
        &self,
        set: &ParamSet,
        trade: &Trade,
    ) -> Result<(usize, usize), Refusal>
        requires kept { IsKept set.now self.now }
        ensures places { result ≡ trade_places set.now self.now.state trade.now }
        ensures account { IfOk result (λ at. at.0 < length self.now.state.accounts) }
        ensures contract { IfOk result (λ at. at.1 < length set.now.contracts) }
        ensures stands { IfOk result (λ at. contract_of set.now trade.now.contract ≡ Ok at.1) }
        ensures fresh { IfOk result (λ at.
            has_number (account_at self.now.state.accounts at.0).lots trade.now.lot ≡ false) }
        ensures few { IfOk result (λ at. is_full (account_at self.now.state.accounts at.0).lots ≡ false) }
        ensures room { IfOk result (λ at.
            is_over self.now.state at.0 trade.now.contract trade.now.quantity ≡ false) }
    {
        refuse_if(self.closed, Refusal::Closed)?;
        let place = self.place(trade.account)?;
        let owner = &self.accounts[place];
        refuse_if(owner.has_lot(trade.lot), Refusal::Duplicate)?;
        let i = contract_of(set, trade.contract)?;
        refuse_if(!premium_fits(set, i, trade.premium), Refusal::Premium)?;
        refuse_if(owner.is_full(), Refusal::Limit)?;
        let size = self.unit_size(set, place, trade.contract, i);
        refuse_if(is_over(size, trade.quantity), Refusal::Limit)?;
        Ok((place, i))
    }

    // Where an account and its traded lot stand, if the lot can be busted.
    #[tactic(auto, unfolding(mgn_machine::specs::Refusals::bust_places))]
    pub(crate) fn bust_places(
        &self,
        account: AccountName,
        lot: LotId,
    ) -> Result<(usize, usize), Refusal>
        ensures places { result ≡ bust_places self.now.state account lot }
        ensures account { IfOk result (λ at. at.0 < length self.now.state.accounts) }
        ensures lot { IfOk result (λ at. at.1 < length (account_at self.now.state.accounts at.0).lots) }
        ensures live { IfOk result (λ at.
            is_live (lot_at (account_at self.now.state.accounts at.0).lots at.1).mark ≡ true) }
    {
        refuse_if(self.closed, Refusal::Closed)?;
        let place = self.place(account)?;
        let owner = &self.accounts[place];
        let at = lot_place(owner, lot)?;
        let mark = owner.lot_at(at).mark;
        refuse_if(is_busted(mark), Refusal::NoTrade)?;
        refuse_if(is_moved(mark), Refusal::Moved)?;
        Ok((place, at))
    }

    // Where the contract of a live lot stands in the set.
    pub(crate) fn contract_of_lot(&self, set: &ParamSet, place: usize, at: usize) -> usize
        requires kept { IsKept set.now self.now }
        requires account { place < length self.now.state.accounts }
        requires lot { at < length (account_at self.now.state.accounts place).lots }
        requires live { is_live (lot_at (account_at self.now.state.accounts place).lots at).mark ≡ true }
        ensures stands { contract_of set.now (lot_at (account_at self.now.state.accounts place).lots at).contract
            ≡ Ok result }
        ensures within { result < length set.now.contracts }
    {
        known_contract(set, self.accounts[place].lot_at(at).contract)
    }

    // Where an account stands that posts, and what is then posted of the class, if it is not refused.
    #[tactic(auto, unfolding(mgn_machine::specs::Refusals::post_place))]
    pub(crate) fn post_place(
        &self,
        set: &ParamSet,
        account: AccountName,
        class: &ClassName,
        units: Units,
    ) -> Result<(usize, u64), Refusal>
        ensures place { result ≡ post_place set.now self.now.state account class.now units }
        ensures account { IfOk result (λ at. at.0 < length self.now.state.accounts) }
        ensures most { IfOk result (λ at. at.1 ≤ most_of class.now) }
    {
        refuse_if(self.closed, Refusal::Closed)?;
        let place = self.place(account)?;
        refuse_if(!is_known(set, class), Refusal::NoClass)?;
        let amount = self.accounts[place].amount(class) + units.number();
        refuse_if(most_of(class) < amount, Refusal::Limit)?;
        Ok((place, amount))
    }

    // Where an account stands that draws, and what is then left of the class, if it is not refused.
    #[tactic(auto, unfolding(mgn_machine::specs::Refusals::draw_place))]
    pub(crate) fn draw_place(
        &self,
        set: &ParamSet,
        account: AccountName,
        class: &ClassName,
        units: Units,
    ) -> Result<(usize, u64), Refusal>
        ensures place { result ≡ draw_place set.now self.now.state account class.now units }
        ensures account { IfOk result (λ at. at.0 < length self.now.state.accounts) }
        ensures most { IfOk result (λ at. at.1 ≤ most_of class.now) }
        ensures some { IfOk result (λ at.
            1 ≤ amount_of class.now (account_at self.now.state.accounts at.0).collateral) }
    {
        refuse_if(self.closed, Refusal::Closed)?;
        let place = self.place(account)?;
        refuse_if(!is_known(set, class), Refusal::NoClass)?;
        let there = self.accounts[place].amount(class);
        refuse_if(there < units.number(), Refusal::Over)?;
        Ok((place, there - units.number()))
    }

    // Whether an account's unit would have room below 0 with another amount of a class.
    pub(crate) fn lacks_room_with(
        &self,
        set: &ParamSet,
        place: usize,
        class: &ClassName,
        amount: u64,
    ) -> bool
        requires kept { IsKept set.now self.now }
        requires place { place < length self.now.state.accounts }
        requires most { amount ≤ most_of class.now }
        ensures { let a = account_at self.now.state.accounts place in
            let after = put self.now.state place (with_amount a class.now amount) in
            result ≡ int_lt (unit_room set.now after.accounts a.unit) (pos 0) }
    {
        let owner = &self.accounts[place];
        let before = owner.collateral_value(set);
        let after = owner.value_with(set, class, amount);
        self.row(set, place)
            .lacks_room_with(set, after.minus(before))
    }
}

// Whether a quantity more would be more than a unit may have of a contract.
pub(crate) fn is_over(size: Quantity, quantity: LotQuantity) -> bool
    requires { IsNet size }
    ensures { result ≡ int_lt (pos (10 ^ 7)) (size +ℤ pos (unsigned_abs quantity)) }
{
    passes_limit(size, quantity.quantity())
}

// The same of a quantity of one or two lots.
pub(crate) fn passes_limit(size: Quantity, quantity: Quantity) -> bool
    requires size { IsNet size }
    requires quantity { unsigned_abs quantity ≤ 2 * 10 ^ 6 }
    ensures { result ≡ int_lt (pos (10 ^ 7)) (size +ℤ pos (unsigned_abs quantity)) }
{
    Quantity::new(MOST_SIZE) < size.plus(Quantity::new(quantity.size() as i64))
}
