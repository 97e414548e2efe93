ghost use Rattle.std.specs.Prelude.{◌≡◌, ◌<◌, ◌≤◌, ◌^◌, ℕ, IfOk, false, filter, length, slice_index_or};
ghost use Rattle.mgn_lots.specs.declared.lot.Lot.{Lot as LotValue};
ghost use Rattle.mgn_lots.specs.Lots.{is_live};
ghost use Rattle.mgn_coll.specs.Posted.{class_value};
ghost use Rattle.mgn_params.specs.Limits.{IsClass};
ghost use Rattle.mgn_span.specs.Positions.{positions};
ghost use Rattle.mgn_machine.specs.Statements.{class_lines, commodity_lines, is_held};
ghost use Rattle.mgn_statement.specs.Statement.{line_by};

use mgn_coll::{Collateral, class_value};
use mgn_lots::Lot;
use mgn_machine::{ClassLine, CommodityLine, CommodityLines};
use mgn_nets::Nets;
use mgn_params::{Class, ParamSet};
use mgn_plain::{CommodityFigures, NetFigures};
use std::alloc::{AllocError, Global};

// Of each commodity by its place whether a net in a contract of it is not 0. Nets of 0 are passed over.
fn held_commodities(set: &ParamSet, nets: &Nets) -> [bool; 256]
    requires one_each { length nets.now ≡ length set.now.contracts }
    ensures long { length result ≡ 256 }
    ensures held { (g : ℕ) → slice_index_or result g false ≡ is_held (positions set.now.contracts nets.now) g }
{
    set.limits();
    let mut held = [false; 256];
    let mut from = 0;
    while let Some(i) = nets.next_held(from) {
        held[set.contract_at(i).commodity] = true;
        from = i + 1;
    }
    held
}

// The figures of a commodity by its name.
fn line_of(set: &ParamSet, commodity: usize, figures: &CommodityFigures) -> CommodityLine
    requires commodity { commodity < length set.now.commodities }
    requires active { figures.now.active ≤ 15 }
    ensures { result ≡ line_by set.now commodity figures.now }
{
    CommodityLine {
        commodity: set.commodity_at(commodity).name,
        scan: figures.scan,
        active: figures.active as u8 + 1,
        intra: figures.intra,
        spot: figures.spot,
        credit: figures.credit,
        minimum: figures.minimum,
        risk: figures.risk,
    }
}

/// The figures of the commodities in which a net is not 0, in file order.
#[tactic(auto, using(mgn_span::proofs::ScanLemmas::active_small), unfolding(mgn_machine::specs::Statements::commodity_lines, mgn_plain::specs::Figures::commodity_figures))]
pub(crate) fn commodity_lines(
    alloc: Global,
    set: &ParamSet,
    nets: &Nets,
    figures: &NetFigures,
) -> Result<CommodityLines, AllocError>
    requires one_each { length nets.now ≡ length set.now.contracts }
    requires figures { figures.now ≡ record { set = set.now; nets = nets.now } }
    ensures { IfOk result (λ lines. lines ≡ commodity_lines set.now (positions set.now.contracts nets.now)) }
{
    let marks = held_commodities(set, nets);
    // Few sets have as many commodities as there are marks.
    let held = &marks[..set.commodity_count()];
    let count = held.iter().filter(|&&mark| mark).count();
    let mut lines = CommodityLines::with_capacity(alloc, count)?;
    for commodity in 0..set.commodity_count() {
        if held[commodity] {
            lines.push(&line_of(set, commodity, &figures.commodity(commodity)))?;
        }
    }
    prove!(lines.len() <= count);
    Ok(lines)
}

/// The live lots, in order of entry.
#[tactic(auto, using(std::proofs::lemmas::List::Elements::filter_more, crate::proofs::Lists::count_room))]
pub(crate) fn live_lots(alloc: Global, lots: &[Lot]) -> Result<Vec<Lot>, AllocError>
    ensures { IfOk result (λ live. live.items ≡ filter (λ (x : LotValue). is_live x.mark) lots.now) }
{
    let count = lots.iter().filter(|lot| lot.mark.is_live()).count();
    let mut live = Vec::with_capacity(alloc, count)?;
    for lot in lots {
        if lot.mark.is_live() {
            live.push_reserved(*lot);
        }
    }
    Ok(live)
}

// The units of a class with their value.
fn class_line(class: &Class, units: u64) -> ClassLine
    requires limits { IsClass class.now }
    requires units { units ≤ 10 ^ 9 }
    ensures { result ≡ record { class = class.now.name; units = units; value = class_value class.now units } }
{
    ClassLine {
        class: class.name,
        units,
        value: class_value(class, units),
    }
}

/// The classes of which units are posted, in file order.
#[tactic(auto, using(crate::proofs::Lists::kept_more, crate::proofs::Lists::left_more, crate::proofs::Lists::count_room), unfolding(mgn_machine::specs::Statements::class_lines))]
pub(crate) fn class_lines(
    alloc: Global,
    set: &ParamSet,
    collateral: &Collateral,
) -> Result<Vec<ClassLine>, AllocError>
    ensures { IfOk result (λ lines. lines.items ≡ class_lines set.now.classes collateral.now.units) }
{
    set.limits();
    let classes = set.classes();
    let count = classes
        .iter()
        .filter(|class| collateral.class_units(&class.name) > 0)
        .count();
    let mut lines = Vec::with_capacity(alloc, count)?;
    for class in classes {
        let units = collateral.class_units(&class.name);
        if 0 < units {
            lines.push_reserved(class_line(class, units));
        }
    }
    Ok(lines)
}
