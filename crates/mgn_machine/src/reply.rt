ghost use Rattle.std.specs.Prelude.{◌≡◌};

use crate::statement::SharedStatement;
use mgn_num::Cents;
use std::alloc::AllocError;

/// Why a command is refused.
#[derive(Clone, Copy, PartialEq, Eq, Debug)]
pub enum Refusal {
    /// There is no such account.
    NoAccount,
    /// There is no such origin.
    NoOrigin,
    /// The name or number is there already, or a MOVE is from an account to itself.
    Duplicate,
    /// The current set has no such contract.
    NoContract,
    /// The account has no such lot, or it is busted.
    NoTrade,
    /// The account has no hold of that order.
    NoOrder,
    /// The class is neither CASH nor one of the current set.
    NoClass,
    /// A portfolio of the unit would have less than it requires.
    NoRoom,
    /// A limit would be passed.
    Limit,
    /// The premium or limit does not fit the contract, or the premium of a fill misses the limit of its order.
    Premium,
    /// It is more than is there, or has another sign than what is there.
    Over,
    /// The accounts are of different origins.
    OtherOrigin,
    /// The lot was moved between accounts.
    Moved,
    /// The new set lacks the contract of a live lot or of a hold, or a class of which units are posted.
    Missing,
    /// There were 64 sets after the first.
    Sets,
    /// The day is over.
    Closed,
    /// Memory could not be had. Nothing has changed.
    Memory,
    /// The history is full.
    Full,
    /// A service that several sessions share found its book and its passes apart. It is closed.
    Broken,
}

/// The figures of a margin unit, in cents.
#[derive(Clone, Copy, PartialEq, Eq, Debug)]
pub struct UnitFigures {
    /// What the positions must have deposited.
    pub requirement: Cents,
    /// What the portfolio with the least room must have deposited.
    pub exposure_requirement: Cents,
    /// What is there: collateral less what the live lots cost.
    pub value: Cents,
    /// What is there for the portfolio with the least room, its holds counted as filled at their limits.
    pub exposure_value: Cents,
    /// The exposure value less the exposure requirement: the least over the portfolios.
    pub room: Cents,
}

/// What the lots of an origin's accounts come to: margined gross the sums over the accounts, each by itself; netted the
/// figures of the origin's one margin unit. In cents.
#[derive(Clone, Copy, PartialEq, Eq, Debug)]
pub struct Totals {
    /// What the lots must have deposited.
    pub requirement: Cents,
    /// What is there: collateral less what the live lots cost.
    pub value: Cents,
    /// What is called for: the requirement less the value, and 0 where there is enough. Gross, what one account has too
    /// much lowers no other's call.
    pub call: Cents,
    /// How many accounts the origin has.
    pub accounts: u32,
}

/// What a set that came into force is told by.
#[derive(Clone, Copy, PartialEq, Eq, Debug)]
pub struct NewSet {
    /// The number of its version, 1 to 64.
    pub version: u8,
    /// How many margin units must have deposited more than is there for their lots.
    pub on_call: u32,
}

/// What a request is answered.
#[derive(Drop)]
pub enum Reply {
    /// It is done.
    Done,
    /// The figures asked for.
    Figures(UnitFigures),
    /// The totals asked for.
    Totals(Totals),
    /// The set is in force.
    NewSet(NewSet),
    /// The statement asked for.
    Statement(SharedStatement),
    /// It is refused, and nothing has changed.
    Refused(Refusal),
}

impl Reply {
    ghost use Rattle.std.specs.Prelude.{IfOk, IsOk, true};
    ghost use Rattle.mgn_machine.specs.Brief.{is_brief};

    /// An equal reply, which shares the statement if it is one. It takes no memory; an error says that no more owners of
    /// a statement can be counted.
    pub fn copy(&self) -> Result<Reply, AllocError>
        ensures equal { IfOk result (λ copy. copy ≡ self.now) }
        ensures brief { is_brief self.now ≡ true → IsOk result }
    {
        match self {
            Reply::Done => Ok(Reply::Done),
            Reply::Figures(figures) => Ok(Reply::Figures(*figures)),
            Reply::Totals(totals) => Ok(Reply::Totals(*totals)),
            Reply::NewSet(told) => Ok(Reply::NewSet(*told)),
            Reply::Statement(statement) => Ok(Reply::Statement(statement.share()?)),
            Reply::Refused(why) => Ok(Reply::Refused(*why)),
        }
    }
}

/// A reply, with its place in the history where it has one.
#[derive(Drop)]
pub struct Answer {
    /// The number of the entry in the history, from 1.
    pub place: Option<u64>,
    /// The reply.
    pub reply: Reply,
}

impl Answer {
    ghost use Rattle.std.specs.Prelude.{None, Some};

    /// An answer that has no entry in the history.
    pub fn refused(refusal: Refusal) -> Answer
        ensures place { result.place ≡ None }
        ensures reply { result.reply ≡ Reply.Refused refusal }
    {
        Answer {
            place: None,
            reply: Reply::Refused(refusal),
        }
    }
}
