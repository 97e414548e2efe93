ghost use Rattle.std.specs.Prelude.{◌≡◌, IfOk};

use crate::command::Mode;
use crate::commodity_lines::CommodityLines;
use crate::reply::UnitFigures;
use mgn_holds::Held;
use mgn_ids::{AccountName, ClassName, CommodityName, OriginName, SetName};
use mgn_lots::Lot;
use mgn_num::Cents;
use mgn_params::Version;
use std::alloc::{AllocError, Global};
use std::marker::Model;
use std::sync::Arc;

/// What a statement tells once: whose it is, under which set, and the amounts of the account's margin unit in cents.
#[derive(Clone, Copy)]
pub struct Heading {
    /// The account.
    pub account: AccountName,
    /// Its origin.
    pub origin: OriginName,
    /// How the origin is margined.
    pub mode: Mode,
    /// The name of the set in force, as its file gives it.
    pub set: SetName,
    /// The version of the set in force.
    pub version: Version,
    /// The figures of the account's margin unit.
    pub figures: UnitFigures,
    /// What the unit must have deposited above what is there for its lots; 0 where there is enough.
    pub call: Cents,
    /// The net option value of the unit's positions: what long options of the premium style are worth, less what short
    /// ones are.
    pub option_value: Cents,
    /// The account's cash, 0 to 10^15 cents.
    pub cash: u64,
}

/// The figures of a commodity in which the unit has a position, in cents.
#[derive(Clone, Copy)]
pub struct CommodityLine {
    /// The commodity.
    pub commodity: CommodityName,
    /// The scan risk: the largest loss over the scenarios (CME SPAN).
    pub scan: Cents,
    /// The number of the active scenario, 1 to 16: the lowest with the largest loss.
    pub active: u8,
    /// What intracommodity spreads charge (CME SPAN).
    pub intra: Cents,
    /// The spot month charge.
    pub spot: Cents,
    /// What intercommodity spreads credit (CME SPAN).
    pub credit: Cents,
    /// The short option minimum (CME SPAN).
    pub minimum: Cents,
    /// What the commodity adds to the requirement, before the net option value is taken off.
    pub risk: Cents,
}

/// Collateral of a class of which the account has units.
#[derive(Clone, Copy)]
pub struct ClassLine {
    /// The class.
    pub class: ClassName,
    /// The units posted, 1 to 10^9.
    pub units: u64,
    /// Their value after the haircut, in cents.
    pub value: u64,
}

/// The statement of an account: all that its requirement can be worked out from again. Contracts see the heading and
/// the lists.
#[derive(Drop)]
pub struct Statement {
    heading: Heading,
    commodities: CommodityLines,
    lots: Vec<Lot>,
    holds: Vec<Held>,
    classes: Vec<ClassLine>,
}

impl Model for Statement {
    ghost use Rattle.mgn_machine.specs.Statements.{Told};

    ghost Value = { Told };

    ghost view = { λ s. record {
      heading = s.heading;
      commodities = s.commodities;
      lots = s.lots.items;
      holds = s.holds.items;
      classes = s.classes.items;
    } };
}

impl Statement {
    /// A statement of these parts.
    pub fn new(
        heading: Heading,
        commodities: CommodityLines,
        lots: Vec<Lot>,
        holds: Vec<Held>,
        classes: Vec<ClassLine>,
    ) -> Statement
        ensures { result ≡ record { heading = heading; commodities = commodities; lots = lots.items; holds = holds.items; classes = classes.items } }
    {
        Statement {
            heading,
            commodities,
            lots,
            holds,
            classes,
        }
    }

    /// What it tells once.
    pub fn heading(&self) -> &Heading
        ensures { result.now ≡ self.now.heading }
    {
        &self.heading
    }

    /// The commodities in which the unit has a position that is not 0, in file order of the set.
    pub fn commodities(&self) -> &CommodityLines
        ensures { result.now ≡ self.now.commodities }
    {
        &self.commodities
    }

    /// The live lots of the account, in order of entry.
    pub fn lots(&self) -> &[Lot]
        ensures { result.now ≡ self.now.lots }
    {
        self.lots.as_slice()
    }

    /// The holds of the account, in order of entry.
    pub fn holds(&self) -> &[Held]
        ensures { result.now ≡ self.now.holds }
    {
        self.holds.as_slice()
    }

    /// The classes of which the account has units, in file order of the set.
    pub fn classes(&self) -> &[ClassLine]
        ensures { result.now ≡ self.now.classes }
    {
        self.classes.as_slice()
    }
}

/// A statement that the history and those to whom it is told have together. Contracts see the statement.
#[derive(Drop)]
pub struct SharedStatement {
    statement: Arc<Statement>,
}

impl Model for SharedStatement {
    ghost use Rattle.std.specs.Arc.{arc_value};
    ghost use Rattle.mgn_machine.specs.Statements.{Told};

    ghost Value = { Told };

    ghost view = { λ s. arc_value s.statement };
}

impl SharedStatement {
    /// A statement with one owner. An error says that memory was refused.
    pub fn new(alloc: Global, statement: Statement) -> Result<SharedStatement, AllocError>
        ensures { IfOk result (λ shared. shared ≡ statement) }
    {
        let statement = Arc::new(alloc, statement)?;
        Ok(SharedStatement { statement })
    }

    /// The same statement for one owner more. It takes no memory; an error says that no more owners can be counted.
    pub fn share(&self) -> Result<SharedStatement, AllocError>
        ensures { IfOk result (λ shared. shared ≡ self.now) }
    {
        let statement = Arc::try_clone(&self.statement)?;
        Ok(SharedStatement { statement })
    }

    /// The statement.
    pub fn statement(&self) -> &Statement
        ensures { result.now ≡ self.now }
    {
        &self.statement
    }
}
