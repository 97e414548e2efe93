use mgn_ids::{
    AccountName, ClassName, ContractName, LotId, LotQuantity, OrderId, OriginName, Premium, Units,
};

/// How an origin is margined.
#[derive(Clone, Copy, PartialEq, Eq, Debug)]
pub enum Mode {
    /// Each account by itself: the origin owes the sum, as 17 CFR 39.13(g)(8)(i) asks for customers.
    Gross,
    /// All accounts as one netted portfolio, as a house origin is.
    Net,
}

/// A lot that is to be entered.
#[derive(Clone, Copy)]
pub struct Trade {
    /// The account.
    pub account: AccountName,
    /// The lot's number, 1 to 10^12, which the account has not used.
    pub lot: LotId,
    /// The contract.
    pub contract: ContractName,
    /// How many contracts, 1 to 1,000,000 in size: above 0 bought, below 0 sold.
    pub quantity: LotQuantity,
    /// The premium in cents for each contract, 0 to 10^8; 0 but for options of the premium style.
    pub premium: Premium,
}

/// An order for which room is to be held.
#[derive(Clone, Copy)]
pub struct Hold {
    /// The account.
    pub account: AccountName,
    /// The order's number, 1 to 10^12, of which the account holds nothing yet.
    pub order: OrderId,
    /// The contract.
    pub contract: ContractName,
    /// How many contracts, 1 to 1,000,000 in size: above 0 to buy, below 0 to sell.
    pub quantity: LotQuantity,
    /// The limit in cents for each contract, 0 to 10^8; 0 but for options of the premium style.
    pub limit: Premium,
}

/// A lot that fills a held order, in part or whole.
#[derive(Clone, Copy)]
pub struct Fill {
    /// The account.
    pub account: AccountName,
    /// The order's number, 1 to 10^12.
    pub order: OrderId,
    /// The lot's number, 1 to 10^12, which the account has not used.
    pub lot: LotId,
    /// How many contracts, 1 to 1,000,000 in size, of the held quantity's sign and at most as many.
    pub quantity: LotQuantity,
    /// The premium in cents for each contract, 0 to 10^8: within the order's limit.
    pub premium: Premium,
}

/// A quantity of a contract that goes from one account to another of its origin.
#[derive(Clone, Copy)]
pub struct Transfer {
    /// The number of both lots, 1 to 10^12, which neither account has used.
    pub lot: LotId,
    /// The account that gives.
    pub from: AccountName,
    /// The account that takes.
    pub to: AccountName,
    /// The contract.
    pub contract: ContractName,
    /// How many contracts the taker gains and the giver loses, 1 to 1,000,000 in size; below 0 the other way round.
    pub quantity: LotQuantity,
}

/// What a session asks of the book.
#[derive(Clone, Copy)]
pub enum Command {
    /// `ORIGIN`: an origin with its mode.
    NewOrigin(OriginName, Mode),
    /// `OPEN`: an account in an origin.
    NewAccount(AccountName, OriginName),
    /// `TRADE`: a lot of an account.
    Trade(Trade),
    /// `BUST`: a traded lot of an account is busted: it counts no more.
    Bust(AccountName, LotId),
    /// `HOLD`: room held for an order of an account.
    Hold(Hold),
    /// `FILL`: a lot of a held order.
    Fill(Fill),
    /// `RELEASE`: an order is held no more.
    Release(AccountName, OrderId),
    /// `MOVE`: a quantity of a contract from one account to another.
    Transfer(Transfer),
    /// `POST`: units of a collateral class, or cents where the class is CASH.
    Post(AccountName, ClassName, Units),
    /// `DRAW`: units of a collateral class, or cents where the class is CASH, are taken off.
    Draw(AccountName, ClassName, Units),
    /// `ASK`: the figures of the account's margin unit.
    Ask(AccountName),
    /// `TOTAL`: the totals of the origin.
    Total(OriginName),
    /// `STMT`: the statement of the account.
    Statement(AccountName),
    /// `END`: the day is over, and the book changes no more.
    EndDay,
}
