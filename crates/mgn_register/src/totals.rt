ghost use Rattle.std.specs.Prelude.{◌≡◌, ◌<◌, ◌≤◌, ◌^◌, IfSome, None, length, unsigned_abs};
ghost use Rattle.mgn_machine.specs.Refusals.{home_of};
ghost use Rattle.mgn_machine.specs.State.{account_at};
ghost use Rattle.mgn_machine.specs.Step.{totalled};
ghost use Rattle.mgn_machine.specs.Totals.{account_count, in_origin, origin_figure};
ghost use Rattle.mgn_register.specs.Balances.{IsBalance, balance_over, balance_sum, portfolio_balance};
ghost use Rattle.mgn_register.specs.BookStates.{IsKept};

use crate::origins::home_of;
use crate::register::Register;
use mgn_ids::OriginName;
use mgn_machine::{Reply, Totals};
use mgn_num::Cents;
use mgn_params::ParamSet;
use mgn_unit::PortfolioRow;

/// The margin balance of lots, in cents: what they require, what is there for them, and what is called for.
#[derive(Clone, Copy)]
pub(crate) struct Balance {
    pub requirement: Cents,
    pub value: Cents,
    pub call: Cents,
}

impl Balance {
    const NOTHING: Balance = Balance {
        requirement: Cents::ZERO,
        value: Cents::ZERO,
        call: Cents::ZERO,
    };

    // Of the lots of a margin unit.
    fn of(lots: &PortfolioRow) -> Balance
        requires requirement { unsigned_abs lots.now.requirement ≤ 10 ^ 30 }
        requires worth { unsigned_abs lots.now.worth ≤ 10 ^ 24 }
        ensures balance { result ≡ portfolio_balance lots.now }
        ensures limits { IsBalance 1 result }
    {
        Balance {
            requirement: lots.requirement,
            value: lots.worth,
            call: lots.requirement.minus(lots.worth).or_zero(),
        }
    }

    // Of both together: the calls are summed, so what one has too much lowers no call of the other.
    fn plus(self, other: Balance) -> Balance
        requires { IsBalance 1024 (balance_sum self other) }
        ensures { result ≡ balance_sum self other }
    {
        Balance {
            requirement: self.requirement.plus(other.requirement),
            value: self.value.plus(other.value),
            call: self.call.plus(other.call),
        }
    }
}

impl Register {
    /// The totals of an origin, read from kept rows.
    pub fn total(&self, set: &ParamSet, origin: OriginName) -> Reply
        requires kept { IsKept set.now self.now }
        ensures { result ≡ totalled set.now self.now.state (home_of self.now.state.origins origin) }
    {
        match home_of(self.origins.as_slice(), origin) {
            Ok((place, unit)) => {
                let balance = self.origin_balance(set, place, unit);
                Reply::Totals(Totals {
                    requirement: balance.requirement,
                    value: balance.value,
                    call: balance.call,
                    accounts: self.account_count(place),
                })
            }
            Err(why) => Reply::Refused(why),
        }
    }

    // How many accounts the origin at a place has.
    fn account_count(&self, origin: usize) -> u32
        requires { length self.now.state.accounts ≤ 1024 }
        ensures { result ≡ account_count self.now.state.accounts origin }
    {
        self.accounts
            .iter()
            .filter(|account| account.origin() == origin)
            .count() as u32
    }

    // The balance of the origin at a place: that of its unit, if it is netted.
    fn origin_balance(&self, set: &ParamSet, origin: usize, unit: Option<usize>) -> Balance
        requires kept { IsKept set.now self.now }
        requires unit { IfSome unit (λ u. u < length self.now.rows) }
        ensures { result ≡
            balance_over set.now self.now.state.accounts (origin_figure self.now.state.accounts (origin, unit)) }
    {
        match unit {
            Some(unit) => self.unit_balance(set, unit),
            None => self.gross_balance(set, origin),
        }
    }

    // The sum over the accounts of an origin, each margined by itself.
    fn gross_balance(&self, set: &ParamSet, origin: usize) -> Balance
        requires kept { IsKept set.now self.now }
        ensures { result ≡
            balance_over set.now self.now.state.accounts (origin_figure self.now.state.accounts (origin, None)) }
    {
        let mut total = Balance::NOTHING;
        for place in 0..self.accounts.len() {
            total = total.plus(self.account_balance(set, origin, place));
        }
        total
    }

    // What an account adds to an origin that is margined gross: nothing where it is of another one.
    fn account_balance(&self, set: &ParamSet, origin: usize, place: usize) -> Balance
        requires kept { IsKept set.now self.now }
        requires place { place < length self.now.state.accounts }
        ensures balance { let accounts = self.now.state.accounts in
            result ≡ balance_over set.now accounts (λ figure. in_origin origin figure (account_at accounts place)) }
        ensures limits { IsBalance 1 result }
    {
        let account = &self.accounts[place];
        if account.origin() == origin {
            self.unit_balance(set, account.unit())
        } else {
            Balance::NOTHING
        }
    }

    // The balance of a margin unit, by its row.
    #[tactic(auto, unfolding(mgn_unit::specs::Rows::portfolio_of, mgn_machine::specs::Room::requirement_of, mgn_machine::specs::Room::worth_of))]
    fn unit_balance(&self, set: &ParamSet, unit: usize) -> Balance
        requires kept { IsKept set.now self.now }
        requires unit { unit < length self.now.rows }
        ensures balance { result ≡ balance_over set.now self.now.state.accounts (λ figure. figure unit) }
        ensures limits { IsBalance 1 result }
    {
        Balance::of(&self.rows[unit].lots)
    }
}
