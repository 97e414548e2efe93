ghost use Rattle.std.specs.Prelude.{◌≡◌, IfOk};
ghost use Rattle.mgn_unit.specs.Rows.{IsPortfolioRow, IsRow};
ghost use Rattle.mgn_span.specs.Options.{net_option_value};
ghost use Rattle.mgn_span.specs.Positions.{positions};
ghost use Rattle.mgn_machine.specs.Statements.{commodity_lines, mode_of};
ghost use Rattle.mgn_machine.specs.Totals.{shortfall};
ghost use Rattle.mgn_statement.specs.Statement.{heading_by, statement_by};

use crate::lines::{class_lines, commodity_lines, live_lots};
use mgn_machine::{CommodityLines, Heading, Mode, Origin, Statement};
use mgn_num::Cents;
use mgn_params::{ParamSet, Version, Work};
use mgn_plain::NetFigures;
use mgn_unit::{Account, PortfolioRow, Row};
use std::alloc::{AllocError, Global};

fn mode_of(unit: Option<usize>) -> Mode
    ensures { result ≡ mode_of unit }
{
    match unit {
        None => Mode::Gross,
        Some(_) => Mode::Net,
    }
}

// What the lots must have deposited above what is there for them.
fn shortfall(set: &ParamSet, lots: &PortfolioRow) -> Cents
    requires { IsPortfolioRow set.now lots.now }
    ensures { result ≡ shortfall lots.now.requirement lots.now.worth }
{
    lots.requirement.minus(lots.worth).or_zero()
}

fn heading(
    set: &ParamSet,
    version: Version,
    origin: &Origin,
    account: &Account,
    row: &Row,
    option_value: Cents,
) -> Heading
    requires row { IsRow set.now row.now }
    ensures { result ≡ heading_by set.now version origin.now account.now row.now option_value }
{
    Heading {
        account: account.name(),
        origin: origin.name,
        mode: mode_of(origin.unit),
        set: set.name(),
        version,
        figures: row.figures(set),
        call: shortfall(set, &row.lots),
        option_value,
        cash: account.collateral().cash(),
    }
}

// The figures of the commodities that the lots are in, and the net option value, worked out anew.
fn commodity_figures(
    alloc: Global,
    set: &ParamSet,
    lots: &PortfolioRow,
) -> Result<(CommodityLines, Cents), AllocError>
    requires { IsPortfolioRow set.now lots.now }
    ensures lines { IfOk result (λ told. told.0 ≡ commodity_lines set.now (positions set.now.contracts lots.now.nets)) }
    ensures value { IfOk result (λ told. told.1 ≡ net_option_value (positions set.now.contracts lots.now.nets)) }
{
    let figures = NetFigures::of(alloc, set, &lots.nets, &mut Work::new())?;
    let lines = commodity_lines(alloc, set, &lots.nets, &figures)?;
    Ok((lines, figures.option_value()))
}

/// The statement of an account of an origin, whose margin unit has this row under the set of a version. The figures of
/// the commodities are worked out anew. An error says that memory was refused, and nothing else fails.
pub fn statement(
    alloc: Global,
    set: &ParamSet,
    version: Version,
    origin: &Origin,
    account: &Account,
    row: &Row,
) -> Result<Statement, AllocError>
    requires row { IsRow set.now row.now }
    ensures { IfOk result (λ told. told ≡ statement_by set.now version origin.now account.now row.now) }
{
    let (commodities, option_value) = commodity_figures(alloc, set, &row.lots)?;
    let heading = heading(set, version, origin, account, row, option_value);
    let lots = live_lots(alloc, account.lots())?;
    let holds = Vec::from_slice(alloc, account.holds())?;
    let classes = class_lines(alloc, set, account.collateral())?;
    Ok(Statement::new(heading, commodities, lots, holds, classes))
}
