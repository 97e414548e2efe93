//! Lines of sessions, drawn from numbers that are the same at each run.

ghost use Rattle.std.specs.Prelude.{◌<◌, length};

use rand::RngExt;
use rand_pcg::Pcg32;
use std::alloc::{AllocError, Global};

const SEED: u64 = 20_261_124;

const ACCOUNTS: [&str; 8] = ["A1", "A2", "A3", "F1", "F2", "H1", "H2", "H1"];

const ORIGINS: [&str; 3] = ["CUST", "FIRM", "HOUSE"];

const CONTRACTS: [&str; 4] = ["AAA1", "AAA2", "AAAC", "BBB1"];

const SETS: [&str; 8] = ["ONE", "TWO", "ONE", "TWO", "TWO", "FUT", "NOPE", "BROKEN"];

const FAULTY: [&str; 7] = [
    "",
    " ASK A1",
    "ASK  A1",
    "ask A1",
    "HOLD A1 1 AAA1 1 -1",
    "TRADE A1 05 AAA1 1 0",
    "OPEN AAAAAAAAAAAAAAAAA CUST",
];

// An order that was asked for, which may have found no room.
#[derive(Clone, Copy)]
struct Asked {
    account: &'static str,
    order: u64,
    quantity: i64,
    limit: i64,
}

const NOT_ASKED: Asked = Asked {
    account: "A1",
    order: 1,
    quantity: 1,
    limit: 0,
};

/// What draws lines. It remembers the last orders and lots, so that some lines are about these.
#[derive(Drop)]
pub(super) struct Lines {
    rng: Pcg32,
    count: u64,
    asked: [Asked; 16],
    traded: [(&'static str, u64); 16],
}

// One of some names, now and then one that nothing has.
fn pick(rng: &mut Pcg32, names: &[&'static str]) -> &'static str
    requires { 0 < length names.now }
{
    if rng.random_range(0u8..60) == 0 {
        return "NONE";
    }
    names[rng.random_range(0..names.len())]
}

// A quantity to buy or to sell.
fn some_quantity(rng: &mut Pcg32) -> i64 {
    let size = rng.random_range(1i64..6);
    if rng.random() { size } else { -size }
}

// A price of a contract: only an option has one, and now and then another contract, wrongly.
fn some_price(rng: &mut Pcg32, contract: &str) -> i64 {
    if contract == "AAAC" || rng.random_range(0u8..60) == 0 {
        rng.random_range(5i64..90)
    } else {
        0
    }
}

impl Lines {
    /// Lines by the numbers of a stream.
    pub(super) fn new(stream: u64) -> Lines {
        Lines {
            rng: Pcg32::new(SEED, stream),
            count: 0,
            asked: [NOT_ASKED; 16],
            traded: [("A1", 1); 16],
        }
    }

    // A number that no line had yet.
    fn number(&mut self) -> u64 {
        self.count = self.count.saturating_add(1);
        self.count
    }

    // A trade, now and then by the number of a lot that is there.
    fn trade(&mut self, out: &mut String) -> Result<(), AllocError> {
        let mut account = pick(&mut self.rng, &ACCOUNTS);
        let mut lot = self.number();
        let place = self.rng.random_range(0usize..16);
        if self.rng.random_range(0u8..16) == 0 {
            (account, lot) = self.traded[place];
        }
        self.traded[place] = (account, lot);
        let contract = pick(&mut self.rng, &CONTRACTS);
        let quantity = some_quantity(&mut self.rng);
        let premium = some_price(&mut self.rng, contract);
        write!(out, "TRADE {account} {lot} {contract} {quantity} {premium}")
    }

    fn bust(&mut self, out: &mut String) -> Result<(), AllocError> {
        let (account, lot) = self.traded[self.rng.random_range(0usize..16)];
        write!(out, "BUST {account} {lot}")
    }

    // A hold, now and then by the number of an order that was asked for.
    fn hold(&mut self, out: &mut String) -> Result<(), AllocError> {
        let contract = pick(&mut self.rng, &CONTRACTS);
        let mut asked = Asked {
            account: pick(&mut self.rng, &ACCOUNTS),
            order: self.number(),
            quantity: some_quantity(&mut self.rng),
            limit: some_price(&mut self.rng, contract),
        };
        let place = self.rng.random_range(0usize..16);
        if self.rng.random_range(0u8..16) == 0 {
            asked.account = self.asked[place].account;
            asked.order = self.asked[place].order;
        }
        self.asked[place] = asked;
        let Asked {
            account,
            order,
            quantity,
            limit,
        } = asked;
        write!(out, "HOLD {account} {order} {contract} {quantity} {limit}")
    }

    // A fill of a part of an order or of more than that, at its limit or a better price.
    fn fill(&mut self, out: &mut String) -> Result<(), AllocError> {
        let asked = self.asked[self.rng.random_range(0usize..16)];
        let (account, order) = (asked.account, asked.order);
        let lot = self.number();
        let size = self.rng.random_range(1i64..5);
        let better = if asked.limit == 0 {
            0
        } else {
            self.rng.random_range(0i64..4)
        };
        let (quantity, premium) = if 0 < asked.quantity {
            (size, asked.limit.saturating_sub(better))
        } else {
            (-size, asked.limit.saturating_add(better))
        };
        write!(out, "FILL {account} {order} {lot} {quantity} {premium}")
    }

    fn release(&mut self, out: &mut String) -> Result<(), AllocError> {
        let asked = self.asked[self.rng.random_range(0usize..16)];
        let (account, order) = (asked.account, asked.order);
        write!(out, "RELEASE {account} {order}")
    }

    // A move between accounts, which are mostly of one origin.
    fn transfer(&mut self, out: &mut String) -> Result<(), AllocError> {
        let lot = self.number();
        let accounts = match self.rng.random_range(0u8..4) {
            0 => ["A1", "A2", "A3"].as_slice(),
            1 => ["F1", "F2"].as_slice(),
            2 => ["H1", "H2"].as_slice(),
            _ => ACCOUNTS.as_slice(),
        };
        let from = pick(&mut self.rng, accounts);
        let to = pick(&mut self.rng, accounts);
        let contract = pick(&mut self.rng, &CONTRACTS);
        let quantity = some_quantity(&mut self.rng);
        write!(out, "MOVE {lot} {from} {to} {contract} {quantity}")
    }

    // Collateral in or out, as the verb says: mostly cash.
    fn collateral(&mut self, verb: &str, out: &mut String) -> Result<(), AllocError> {
        let account = pick(&mut self.rng, &ACCOUNTS);
        if self.rng.random_range(0u8..16) == 0 {
            let units = self.rng.random_range(1u32..3);
            return write!(out, "{verb} {account} BILL {units}");
        }
        let class = pick(&mut self.rng, &["CASH"]);
        let cents = self.rng.random_range(1u32..1_500);
        write!(out, "{verb} {account} {class} {cents}")
    }

    // A question.
    fn question(&mut self, out: &mut String) -> Result<(), AllocError> {
        let account = pick(&mut self.rng, &ACCOUNTS);
        match self.rng.random_range(0u8..6) {
            0 => write!(out, "STMT {account}"),
            1 => {
                let origin = pick(&mut self.rng, &ORIGINS);
                write!(out, "TOTAL {origin}")
            }
            _ => write!(out, "ASK {account}"),
        }
    }

    // An origin or an account, mostly one that is there.
    fn opening(&mut self, out: &mut String) -> Result<(), AllocError> {
        let origin = pick(&mut self.rng, &ORIGINS);
        if self.rng.random() {
            return write!(out, "ORIGIN {origin} NET");
        }
        let account = self.rng.random_range(1u32..8);
        write!(out, "OPEN A{account} {origin}")
    }

    // A line that is no command, one in eight of them too long.
    fn faulty(&mut self, out: &mut String) -> Result<(), AllocError> {
        if self.rng.random_range(0u8..8) == 0 {
            for _ in 0..257 {
                out.push('A')?;
            }
            return Ok(());
        }
        out.push_str(FAULTY[self.rng.random_range(0..FAULTY.len())])
    }

    fn switch(&mut self, out: &mut String) -> Result<(), AllocError> {
        let set = pick(&mut self.rng, &SETS);
        write!(out, "SWITCH {set}")
    }

    /// The next line.
    pub(super) fn draw(&mut self, alloc: Global) -> Result<String, AllocError> {
        let mut out = String::new(alloc);
        match self.rng.random_range(0u16..400) {
            0..80 => self.trade(&mut out),
            80..110 => self.bust(&mut out),
            110..200 => self.hold(&mut out),
            200..250 => self.fill(&mut out),
            250..275 => self.release(&mut out),
            275..305 => self.transfer(&mut out),
            305..335 => self.collateral("POST", &mut out),
            335..365 => self.collateral("DRAW", &mut out),
            365..386 => self.question(&mut out),
            386..388 => self.opening(&mut out),
            388..392 => self.faulty(&mut out),
            _ => self.switch(&mut out),
        }?;
        Ok(out)
    }
}
