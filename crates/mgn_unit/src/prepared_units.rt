//! What a switch is handed of what was prepared for it.

ghost use Rattle.std.specs.Prelude.{◌≡◌, List};
ghost use Rattle.mgn_params.specs.Tables.{Tables};
ghost use Rattle.mgn_unit.specs.NewSets.{ArePrepared};
ghost use Rattle.mgn_unit.specs.Prepared.{AreCurrent};
ghost use Rattle.mgn_unit.specs.declared.row.Row.{Row as UnitRow};

use crate::row::{PreparedUnit, Row};
use std::alloc::Global;

/// What was prepared of margin units for a set, by their numbers, and what a switch to that set leaves behind.
#[derive(Drop)]
pub struct PreparedUnits {
    /// What each unit requires under the set, if that was worked out.
    pub units: Vec<Option<PreparedUnit>>,
    /// Of which of these it is known that the unit still has the nets that it was worked out for.
    pub current: Vec<bool>,
    /// The rows that the set has put out of force: who holds a lock for the switch lets them go after it.
    pub spent: Vec<Row>,
}

impl PreparedUnits {
    /// What was prepared of units, of none of which anything more is known. It takes no memory.
    pub fn new(alloc: Global, units: Vec<Option<PreparedUnit>>) -> PreparedUnits
        ensures units { result.units.items ≡ units.items }
        ensures current { (old new : Tables) (rows : List UnitRow) →
            AreCurrent old new rows result.units.items result.current.items }
    {
        PreparedUnits {
            units,
            current: Vec::new(alloc),
            spent: Vec::new(alloc),
        }
    }

    /// Nothing, where nothing was prepared. It takes no memory.
    pub fn none(alloc: Global) -> PreparedUnits
        ensures prepared { (set : Tables) → ArePrepared set result.units.items }
        ensures current { (old new : Tables) (rows : List UnitRow) →
            AreCurrent old new rows result.units.items result.current.items }
    {
        PreparedUnits::new(alloc, Vec::new(alloc))
    }
}
