//! What the sessions ask, drawn from numbers that are the same at each run.

ghost use Rattle.std.specs.Prelude.{◌<◌, length};

use rand::RngExt;
use rand_pcg::Pcg32;
use std::alloc::{AllocError, Global};

/// What all is drawn from, which each failure names.
pub(crate) const SEED: u64 = 20_261_126;

/// How many sessions there are.
pub(crate) const SESSIONS: u8 = 16;

// How many commands each of them draws.
const COMMANDS: u32 = 5_000;

// Once in so many commands a session switches to another set: four times, so there are 64 switches in all.
const BETWEEN: u64 = 1_250;

/// How many lines a session asks.
pub(crate) const LINES: u64 = COMMANDS as u64 + COMMANDS as u64 / BETWEEN;

/// What the first session asks before all others.
const OPENING: &str = "ORIGIN CUST GROSS\n\
ORIGIN HOUSE NET\n\
OPEN A1 CUST\n\
OPEN A2 CUST\n\
OPEN A3 CUST\n\
OPEN A4 CUST\n\
OPEN A5 CUST\n\
OPEN A6 CUST\n\
OPEN A7 CUST\n\
OPEN H1 HOUSE\n\
OPEN H2 HOUSE\n\
OPEN H3 HOUSE\n\
POST A1 CASH 5000\n\
POST A2 CASH 5000\n\
POST A3 CASH 5000\n\
POST A4 CASH 5000\n\
POST A5 CASH 5000\n\
POST H1 CASH 9000\n";

/// How many lines that are.
pub(crate) const OPENING_LINES: u64 = 18;

const ACCOUNTS: [&str; 10] = ["A1", "A2", "A3", "A4", "A5", "A6", "A7", "H1", "H2", "H3"];

// Each of them is a margin unit of its own.
const CUSTOMERS: [&str; 7] = ["A1", "A2", "A3", "A4", "A5", "A6", "A7"];

const CONTRACTS: [&str; 4] = ["AAA1", "AAA2", "AAAC", "BBB1"];

// What a lot or an order is about. It is drawn from its number, so each session knows it of the others' too.
#[derive(Clone, Copy)]
struct Order {
    account: &'static str,
    contract: &'static str,
    quantity: i64,
    price: i64,
}

fn pick(rng: &mut Pcg32, names: &[&'static str]) -> &'static str
    requires { 0 < length names.now }
{
    names[rng.random_range(0..names.len())]
}

// A quantity to buy or to sell.
fn some_quantity(rng: &mut Pcg32) -> i64 {
    let size = rng.random_range(1i64..6);
    if rng.random() { size } else { -size }
}

fn order_of(number: u64) -> Order {
    let mut rng = Pcg32::new(SEED + 1, number);
    let account = pick(&mut rng, &ACCOUNTS);
    let contract = pick(&mut rng, &CONTRACTS);
    let quantity = some_quantity(&mut rng);
    let price = if contract == "AAAC" {
        rng.random_range(5i64..90)
    } else {
        0
    };
    Order {
        account,
        contract,
        quantity,
        price,
    }
}

// The number of a session's lot or order, which no other session has.
fn number(session: u8, count: u32) -> u64 {
    u64::from(count) * 256 + u64::from(session)
}

// What draws the lines of a session.
#[derive(Drop)]
struct Drawn {
    rng: Pcg32,
    session: u8,
    lots: u32,
    orders: u32,
}

impl Drawn {
    fn new(session: u8) -> Drawn {
        Drawn {
            rng: Pcg32::new(SEED, u64::from(session)),
            session,
            lots: 0,
            orders: 0,
        }
    }

    // A lot's number that no line had yet.
    fn new_lot(&mut self) -> u64 {
        self.lots = self.lots.saturating_add(1);
        number(self.session, self.lots)
    }

    fn new_order(&mut self) -> u64 {
        self.orders = self.orders.saturating_add(1);
        number(self.session, self.orders)
    }

    // A number near a count: mostly one of the session's own, else one of another's, which may be to come.
    fn near(&mut self, count: u32) -> u64 {
        let back = self.rng.random_range(0u32..12);
        let session = if self.rng.random_range(0u8..3) == 0 {
            self.rng.random_range(0..SESSIONS)
        } else {
            self.session
        };
        number(session, count.saturating_sub(back).max(1))
    }

    fn trade(&mut self, out: &mut String) -> Result<(), AllocError> {
        let lot = self.new_lot();
        let Order {
            account,
            contract,
            quantity,
            price,
        } = order_of(lot);
        write!(out, "TRADE {account} {lot} {contract} {quantity} {price}\n")
    }

    fn bust(&mut self, out: &mut String) -> Result<(), AllocError> {
        let lot = self.near(self.lots);
        let account = order_of(lot).account;
        write!(out, "BUST {account} {lot}\n")
    }

    fn hold(&mut self, out: &mut String) -> Result<(), AllocError> {
        let number = self.new_order();
        let Order {
            account,
            contract,
            quantity,
            price,
        } = order_of(number);
        write!(
            out,
            "HOLD {account} {number} {contract} {quantity} {price}\n"
        )
    }

    // A fill of a part of an order, or of more than that, at its limit.
    fn fill(&mut self, out: &mut String) -> Result<(), AllocError> {
        let number = self.near(self.orders);
        let order = order_of(number);
        let lot = self.new_lot();
        let size = self.rng.random_range(1i64..4);
        let quantity = if 0 < order.quantity { size } else { -size };
        let (account, price) = (order.account, order.price);
        write!(out, "FILL {account} {number} {lot} {quantity} {price}\n")
    }

    fn release(&mut self, out: &mut String) -> Result<(), AllocError> {
        let number = self.near(self.orders);
        let account = order_of(number).account;
        write!(out, "RELEASE {account} {number}\n")
    }

    // A move between accounts, mostly between two margin units.
    fn transfer(&mut self, out: &mut String) -> Result<(), AllocError> {
        let lot = self.new_lot();
        let accounts = if self.rng.random_range(0u8..8) == 0 {
            ACCOUNTS.as_slice()
        } else {
            CUSTOMERS.as_slice()
        };
        let from = pick(&mut self.rng, accounts);
        let to = pick(&mut self.rng, accounts);
        let contract = pick(&mut self.rng, &CONTRACTS);
        let quantity = some_quantity(&mut self.rng);
        write!(out, "MOVE {lot} {from} {to} {contract} {quantity}\n")
    }

    // Collateral in or out, as the verb says: mostly cash. More is asked for than comes in, so units are often without
    // room.
    fn collateral(&mut self, verb: &str, most: u32, out: &mut String) -> Result<(), AllocError>
        requires { 1 < most }
    {
        let account = pick(&mut self.rng, &ACCOUNTS);
        if self.rng.random_range(0u8..16) == 0 {
            let units = self.rng.random_range(1u32..3);
            return write!(out, "{verb} {account} BILL {units}\n");
        }
        let cents = self.rng.random_range(1..most);
        write!(out, "{verb} {account} CASH {cents}\n")
    }

    fn question(&mut self, out: &mut String) -> Result<(), AllocError> {
        let account = pick(&mut self.rng, &ACCOUNTS);
        match self.rng.random_range(0u8..6) {
            0 => out.push_str("TOTAL CUST\n"),
            1 => out.push_str("TOTAL HOUSE\n"),
            _ => write!(out, "ASK {account}\n"),
        }
    }

    fn command(&mut self, out: &mut String) -> Result<(), AllocError> {
        match self.rng.random_range(0u8..100) {
            0..16 => self.trade(out),
            16..24 => self.bust(out),
            24..46 => self.hold(out),
            46..56 => self.fill(out),
            56..76 => self.release(out),
            76..84 => self.transfer(out),
            84..89 => self.collateral("POST", 2_000, out),
            89..94 => self.collateral("DRAW", 3_000, out),
            _ => self.question(out),
        }
    }
}

// After a command of a session, the switch that has its turn.
fn switch(session: u8, command: u32, out: &mut String) -> Result<(), AllocError> {
    // The sessions have their turns one after another.
    let turn = u64::from(command) + u64::from(session) * 75;
    if turn % BETWEEN != 0 {
        return Ok(());
    }
    if (turn / BETWEEN + u64::from(session)) % 2 == 0 {
        out.push_str("SWITCH TWO\n")
    } else {
        out.push_str("SWITCH ONE\n")
    }
}

/// The lines of a session. Those of the first one begin with the opening.
pub(crate) fn lines_of(alloc: Global, session: u8) -> Result<String, AllocError> {
    let mut out = String::new(alloc);
    if session == 0 {
        out.push_str(OPENING)?;
    }
    let mut drawn = Drawn::new(session);
    for command in 0..COMMANDS {
        drawn.command(&mut out)?;
        switch(session, command, &mut out)?;
    }
    Ok(out)
}
