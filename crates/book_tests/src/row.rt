//! The portfolios of a unit: a row as it may stand, and one that takes a first change.
ghost use Rattle.std.specs.Prelude.{◌≡◌, ◌<◌, All, IfOk, IfSome, length};
ghost use Rattle.mgn_span.specs.Positions.{IsNet};
ghost use Rattle.mgn_unit.specs.NewSets.{IsPrepared, IsPreparedPortfolio};
ghost use Rattle.mgn_unit.specs.Rows.{IsChange, IsRow, IsPortfolioRow, no_row, no_portfolio};

use mgn_ids::{LotQuantity, Premium};
use mgn_machine::UnitFigures;
use mgn_nets::Nets;
use mgn_num::{Cents, Quantity};
use mgn_params::{ParamSet, Work};
use mgn_plain::requirement;
use mgn_setfile::read_set;
use mgn_unit::{
    Change, Gain, PortfolioRow, PreparedPortfolio, PreparedUnit, Priced, Row, Switch, WorthChange,
};
use std::alloc::{AllocError, Global};
use std::process::Abort;
use std::test::Fail;
use worked_sets::fut;

// A portfolio by its sums alone.
fn side(
    alloc: Global,
    set: &ParamSet,
    worth: u32,
    requirement: u32,
) -> Result<PortfolioRow, AllocError>
    ensures { IfOk result (IsPortfolioRow set.now) }
{
    set.limits();
    Ok(PortfolioRow {
        nets: Nets::flat(alloc, set.contract_count())?,
        worth: Cents::new(i128::from(worth)),
        requirement: Cents::new(i128::from(requirement)),
    })
}

// 900 cents, one lot of AAA1, held buys of 2 and held sales of 3, by their sums.
fn row(alloc: Global, set: &ParamSet) -> Result<Row, AllocError>
    ensures { IfOk result (IsRow set.now) }
{
    set.limits();
    let sizes = Nets::flat(alloc, set.contract_count())?;
    let lots = side(alloc, set, 900, 300)?;
    let buys = side(alloc, set, 900, 900)?;
    let sales = side(alloc, set, 900, 600)?;
    let all = side(alloc, set, 900, 0)?;
    Ok(Row {
        sizes,
        lots,
        buys,
        sales,
        all,
    })
}

fn figures(alloc: Global, set: &ParamSet) -> Result<UnitFigures, AllocError> {
    let row = row(alloc, set)?;
    Ok(row.figures(set))
}

fn amounts(figures: &UnitFigures) -> [i128; 5] {
    [
        figures.requirement.amount(),
        figures.exposure_requirement.amount(),
        figures.value.amount(),
        figures.exposure_value.amount(),
        figures.room.amount(),
    ]
}

// What the portfolio with the least room requires.
fn least(alloc: Global, set: &ParamSet) -> Result<Cents, AllocError> {
    let row = row(alloc, set)?;
    Ok(row.least_portfolio(set).requirement)
}

// Whether the row is short with an amount more.
fn is_short(alloc: Global, set: &ParamSet, amount: i32) -> Result<bool, AllocError> {
    let row = row(alloc, set)?;
    Ok(row.lacks_room_with(set, Cents::new(i128::from(amount))))
}

// What the portfolios are worth, in the order of their fields.
fn worths(row: &Row) -> [i128; 4] {
    [
        row.lots.worth.amount(),
        row.buys.worth.amount(),
        row.sales.worth.amount(),
        row.all.worth.amount(),
    ]
}

// The same after they gained 100 cents.
fn worths_after(alloc: Global, set: &ParamSet) -> Result<[i128; 4], AllocError> {
    let mut row = row(alloc, set)?;
    row.gain_worth(set, Cents::new(100));
    Ok(worths(&row))
}

// The room of a portfolio, and its worth after it lost 100 cents.
fn room_and_worth(alloc: Global, set: &ParamSet) -> Result<(i128, i128), AllocError> {
    let mut side = side(alloc, set, 900, 600)?;
    let room = side.room(set).amount();
    side.gain_worth(set, Cents::new(-100));
    Ok((room, side.worth.amount()))
}

#[tactic(auto, using(mgn_unit::proofs::Flat::flat_portfolio, mgn_unit::proofs::Flat::flat_more))]
// What an empty portfolio requires with 2 contracts that cost nothing, and the room that this leaves; it gains them.
fn gain_two(
    alloc: Global,
    set: &ParamSet,
    side: &mut PortfolioRow,
) -> Result<(i128, i128), AllocError>
    requires contract { 0 < length set.now.contracts }
    requires flat { side.old ≡ no_portfolio set.now }
{
    let gain = Gain {
        quantity: Quantity::new(2),
        worth: WorthChange::ZERO,
    };
    let requirement = side.priced_with(alloc, set, 0, &gain, &mut Work::new())?;
    let room = side.room_after(set, 0, &gain, requirement);
    side.gain(set, 0, &gain, requirement);
    Ok((requirement.amount(), room.amount()))
}

// The same of a new portfolio, and what it then requires.
fn with_two(alloc: Global, set: &ParamSet) -> Result<[i128; 3], AllocError>
    requires { 0 < length set.now.contracts }
{
    let mut side = PortfolioRow::flat(alloc, set)?;
    let (requirement, room) = gain_two(alloc, set, &mut side)?;
    Ok([requirement, room, side.requirement.amount()])
}

#[tactic(auto, using(mgn_unit::proofs::Flat::flat_row, mgn_unit::proofs::Flat::flat_roomy))]
// What the portfolios of an empty unit require after a change, and whether the unit is then short; it changes.
fn change_row(
    alloc: Global,
    set: &ParamSet,
    change: &Change,
    row: &mut Row,
) -> Result<(Priced, bool), AllocError>
    requires change { IsChange set.now change.now }
    requires flat { row.old ≡ no_row set.now }
{
    let priced = row.priced_with(alloc, set, change, &mut Work::new())?;
    let short = row.lacks_room_after(set, change, &priced);
    row.apply(set, change, &priced);
    Ok((priced, short))
}

// What the portfolios require, in the order of their fields.
fn required(row: &Row) -> [i128; 4] {
    [
        row.lots.requirement.amount(),
        row.buys.requirement.amount(),
        row.sales.requirement.amount(),
        row.all.requirement.amount(),
    ]
}

// What the portfolios of a new unit require after a change, and whether they were short with it.
fn changed(alloc: Global, set: &ParamSet, change: &Change) -> Result<([i128; 4], bool), AllocError>
    requires { IsChange set.now change.now }
{
    let mut row = Row::flat(alloc, set)?;
    let (_, short) = change_row(alloc, set, change, &mut row)?;
    Ok((required(&row), short))
}

// Nets of a quantity of the first contract alone.
fn nets_of(alloc: Global, set: &ParamSet, quantity: i8) -> Result<Nets, AllocError>
    requires { 0 < length set.now.contracts }
    ensures one_each { IfOk result (λ nets. length nets ≡ length set.now.contracts) }
    ensures small { IfOk result (λ nets. All IsNet nets) }
{
    set.limits();
    let mut nets = Nets::flat(alloc, set.contract_count())?;
    nets.add(0, Quantity::new(i64::from(quantity)));
    Ok(nets)
}

// What a quantity of the first contract requires, as it is worked out before a switch.
fn prepared(alloc: Global, set: &ParamSet, quantity: i8) -> Result<PreparedPortfolio, AllocError>
    requires { 0 < length set.now.contracts }
    ensures { IfOk result (IsPreparedPortfolio set.now) }
{
    let nets = nets_of(alloc, set, quantity)?;
    let requirement = requirement(alloc, set, &nets, &mut Work::new())?;
    Ok(PreparedPortfolio { nets, requirement })
}

// The same for the four portfolios.
fn prepared_unit(
    alloc: Global,
    set: &ParamSet,
    quantities: [i8; 4],
) -> Result<PreparedUnit, AllocError>
    requires { 0 < length set.now.contracts }
    ensures { IfOk result (IsPrepared set.now) }
{
    let [lots, buys, sales, all] = quantities;
    Ok(PreparedUnit {
        lots: prepared(alloc, set, lots)?,
        buys: prepared(alloc, set, buys)?,
        sales: prepared(alloc, set, sales)?,
        all: prepared(alloc, set, all)?,
    })
}

// A portfolio of a quantity of the first contract.
fn holding(alloc: Global, set: &ParamSet, quantity: i8) -> Result<PortfolioRow, AllocError>
    requires { 0 < length set.now.contracts }
    ensures { IfOk result (IsPortfolioRow set.now) }
{
    Ok(PortfolioRow {
        nets: nets_of(alloc, set, quantity)?,
        worth: Cents::ZERO,
        requirement: Cents::ZERO,
    })
}

// A unit with these quantities of the first contract in its portfolios.
fn row_of(alloc: Global, set: &ParamSet, quantities: [i8; 4]) -> Result<Row, AllocError>
    requires { 0 < length set.now.contracts }
    ensures { IfOk result (IsRow set.now) }
{
    let [lots, buys, sales, all] = quantities;
    Ok(Row {
        sizes: nets_of(alloc, set, lots)?,
        lots: holding(alloc, set, lots)?,
        buys: holding(alloc, set, buys)?,
        sales: holding(alloc, set, sales)?,
        all: holding(alloc, set, all)?,
    })
}

// What the portfolios of a unit require after a switch for which this was prepared.
fn required_after(
    alloc: Global,
    set: &ParamSet,
    row: &Row,
    prepared: Option<PreparedUnit>,
) -> Result<[i128; 4], AllocError>
    requires row { IsRow set.now row.now }
    requires prepared { IfSome prepared (IsPrepared set.now) }
{
    let switch = Switch::new(alloc, set, set)?;
    let switched = row.under(alloc, &switch, Cents::ZERO, prepared, &mut Work::new())?;
    Ok(required(&switched))
}

// The same of a unit of two lots.
fn switched(
    alloc: Global,
    set: &ParamSet,
    prepared: Option<PreparedUnit>,
) -> Result<[i128; 4], AllocError>
    requires contract { 0 < length set.now.contracts }
    requires prepared { IfSome prepared (IsPrepared set.now) }
{
    let row = row_of(alloc, set, [2; 4])?;
    required_after(alloc, set, &row, prepared)
}

// How many risk arrays are read for a unit whose row is made anew under a set, with these quantities of the first
// contract in its portfolios.
fn read_anew(alloc: Global, set: &ParamSet, quantities: [i8; 4]) -> Result<u64, AllocError>
    requires { 0 < length set.now.contracts }
{
    let row = row_of(alloc, set, quantities)?;
    let switch = Switch::new(alloc, set, set)?;
    let mut work = Work::new();
    let _row = row.under(alloc, &switch, Cents::ZERO, None, &mut work)?;
    Ok(work.arrays())
}

// The same for a unit whose row stays, since each contract keeps its place.
fn read_in_place(alloc: Global, set: &ParamSet, quantities: [i8; 4]) -> Result<u64, AllocError>
    requires { 0 < length set.now.contracts }
{
    let row = row_of(alloc, set, quantities)?;
    let switch = Switch::new(alloc, set, set)?;
    let mut work = Work::new();
    if switch.keeps_places() {
        let _amounts = row.amounts_under(alloc, &switch, Cents::ZERO, &mut work)?;
    }
    Ok(work.arrays())
}

#[tactic(auto, using(mgn_unit::proofs::Flat::flat_row, mgn_unit::proofs::Flat::flat_roomy))]
// How many risk arrays are read for what the portfolios of an empty unit require after a change.
fn read_for(
    alloc: Global,
    set: &ParamSet,
    change: &Change,
    row: &mut Row,
) -> Result<u64, AllocError>
    requires change { IsChange set.now change.now }
    requires flat { row.old ≡ no_row set.now }
{
    let mut work = Work::new();
    let _priced = row.priced_with(alloc, set, change, &mut work)?;
    Ok(work.arrays())
}

// The same of a new unit.
fn read_first(alloc: Global, set: &ParamSet, change: &Change) -> Result<u64, AllocError>
    requires { IsChange set.now change.now }
{
    let mut row = Row::flat(alloc, set)?;
    read_for(alloc, set, change, &mut row)
}

// What a row as it may stand answers.
fn check_answers(rt: &impl Abort, alloc: Global, set: &ParamSet) -> Result<(), AllocError> {
    assert_eq!(rt; amounts(&figures(alloc, set)?), [300, 900, 900, 900, 0]);
    assert_eq!(rt; least(alloc, set)?.amount(), 900);
    assert!(rt; !is_short(alloc, set, 0)?);
    assert!(rt; is_short(alloc, set, -1)?);
    assert_eq!(rt; worths_after(alloc, set)?, [1000; 4]);
    assert_eq!(rt; room_and_worth(alloc, set)?, (300, 800));
    Ok(())
}

// What a first change leaves in a portfolio, and held buys of 3 in a row.
fn check_changes(rt: &impl Abort, alloc: Global, set: &ParamSet) -> Result<(), Fail> {
    assert!(rt; set.contract_count() > 0);
    assert_eq!(rt; with_two(alloc, set)?, [600, -600, 600]);
    let change = Change::of_hold(0, LotQuantity::read(b"3")?, Premium::read(b"0")?);
    let held = changed(alloc, set, &change)?;
    assert_eq!(rt; held, ([0, 900, 0, 900], true));
    // The lots and all others gain alike by a trade: the first is worked out, and taken for the others.
    let change = Change::of_lot(0, LotQuantity::read(b"2")?, Premium::read(b"0")?);
    assert_eq!(rt; changed(alloc, set, &change)?, ([600; 4], true));
    assert_eq!(rt; read_first(alloc, set, &change)?, 1);
    Ok(())
}

// What was prepared counts where the nets are the same, and nowhere else.
fn check_switches(rt: &impl Abort, alloc: Global, set: &ParamSet) -> Result<(), Fail> {
    assert!(rt; set.contract_count() > 0);
    assert_eq!(rt; switched(alloc, set, None)?, [600; 4]);
    for quantities in [[2, 2, 2, 2], [1, 2, -3, 0], [3, 3, 3, 3]] {
        let prepared = prepared_unit(alloc, set, quantities)?;
        assert_eq!(rt; switched(alloc, set, Some(prepared))?, [600; 4]);
    }
    Ok(())
}

// Portfolios with equal nets are worked out once: all four, those of one held side, and no two where both sides are held.
fn check_reads(rt: &impl Abort, alloc: Global, set: &ParamSet) -> Result<(), Fail> {
    assert!(rt; set.contract_count() > 0);
    for (quantities, arrays) in [
        ([2, 2, 2, 2], 1),
        ([2, 5, 2, 5], 2),
        ([2, 2, -1, -1], 2),
        ([2, 5, -1, 2], 3),
        ([2, 5, -1, 3], 4),
    ] {
        assert_eq!(rt; read_anew(alloc, set, quantities)?, arrays);
        assert_eq!(rt; read_in_place(alloc, set, quantities)?, arrays);
    }
    Ok(())
}

#[test]
fn a_row_answers_and_changes(rt: HostRuntime) -> Result<(), Fail> {
    let set = read_set(rt.alloc(), fut().as_bytes())?;
    check_answers(&rt, rt.alloc(), &set)?;
    check_changes(&rt, rt.alloc(), &set)?;
    check_switches(&rt, rt.alloc(), &set)?;
    check_reads(&rt, rt.alloc(), &set)
}
