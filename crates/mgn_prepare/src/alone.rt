ghost use Rattle.std.specs.Prelude.{◌≡◌, map, All, IfOk};
ghost use Rattle.mgn_nets.specs.Portfolios.{AreUnitNets};
ghost use Rattle.mgn_unit.specs.NewSets.{ArePrepared};
ghost use Rattle.mgn_prepare.specs.Marks.{mark_of};

use crate::marker::Marker;
use crate::marks::UnitGate;
use mgn_params::ParamSet;
use mgn_unit::{CopiedNets, PreparedUnit};
use std::alloc::{AllocError, Global};

/// What `mark_all` gives, worked out by the caller alone, who passes the gate before each unit. An error says that
/// memory was refused.
pub fn mark_alone<G: UnitGate>(
    alloc: Global,
    old: &ParamSet,
    new: &ParamSet,
    nets: &[CopiedNets],
    gate: &G,
) -> Result<Vec<Option<PreparedUnit>>, AllocError>
    requires { All (AreUnitNets old.now) nets.now }
    ensures marks { IfOk result (λ marks. marks.items ≡ map (mark_of old.now new.now) nets.now) }
    ensures prepared { IfOk result (λ marks. ArePrepared new.now marks.items) }
{
    let marker = Marker::new(alloc, old, new)?;
    let mut marks = Vec::with_capacity(alloc, nets.len())?;
    for unit in 0..nets.len() {
        gate.before(unit);
        marks.push_reserved(marker.mark(&nets[unit])?);
    }
    Ok(marks)
}
