//! What a switch is prepared from, and for which units it was prepared in vain.

use crate::copies::UnitCopy;
use crate::shows::Shows;
use mgn_nets::Nets;
use mgn_num::Quantity;
use mgn_params::ParamSet;
use mgn_slots::{SlotNames, Stamp};
use mgn_unit::{PreparedUnit, PreparedUnits, Row};

/// What a switch is prepared from.
#[derive(Drop)]
pub struct Gathered<'a, T: Shows, J: SlotNames> {
    /// The set that was in force.
    pub set: &'a ParamSet,
    /// A copy of the nets of each unit under it, in order of the units' numbers.
    pub nets: Vec<UnitCopy>,
    /// What shows since when each unit has these nets; none where that is not known.
    pub since: Vec<Stamp<'a, T, J>>,
}

/// How many units a switch from one set to another has to work out itself.
pub fn late_units(rows: &[Row], old: &ParamSet, new: &ParamSet, prepared: &PreparedUnits) -> u64 {
    (0..rows.len())
        .filter(|unit| is_late(*unit, rows, old, new, prepared))
        .count() as u64
}

// Whether nothing was prepared of a unit, or for other nets than it has.
fn is_late(
    unit: usize,
    rows: &[Row],
    old: &ParamSet,
    new: &ParamSet,
    prepared: &PreparedUnits,
) -> bool {
    let (Some(row), Some(Some(one))) = (rows.get(unit), prepared.units.get(unit)) else {
        return true;
    };
    prepared.current.get(unit) != Some(&true) && !has_nets(one, row, old, new)
}

// Whether a unit has, by the contracts' names, the nets that were worked out for it.
fn has_nets(prepared: &PreparedUnit, row: &Row, old: &ParamSet, new: &ParamSet) -> bool {
    are_same(&prepared.lots.nets, &row.lots.nets, old, new)
        && are_same(&prepared.buys.nets, &row.buys.nets, old, new)
        && are_same(&prepared.sales.nets, &row.sales.nets, old, new)
        && are_same(&prepared.all.nets, &row.all.nets, old, new)
}

// The net at a place, if there is one.
fn net_at(nets: &Nets, place: usize) -> Option<Quantity> {
    if place < nets.len() {
        Some(nets.at(place))
    } else {
        None
    }
}

// Whether nets under a new set are those under the old one, by the contracts' names.
fn are_same(carried: &Nets, nets: &Nets, old: &ParamSet, new: &ParamSet) -> bool {
    for contract in 0..new.contract_count() {
        let net = match old.contract(new.contract_at(contract).name) {
            Some(place) => net_at(nets, place),
            None => None,
        };
        let here = net.unwrap_or(Quantity::ZERO);
        if net_at(carried, contract) != Some(here) {
            return false;
        }
    }
    true
}
