//! What is gathered and prepared for a switch.

ghost use Rattle.std.specs.Prelude.{◌≡◌, false, length, map, replicate, All, IfOk, OnOk};
ghost use Rattle.mgn_nets.specs.Portfolios.{AreUnitNets};
ghost use Rattle.mgn_unit.specs.NewSets.{ArePrepared};
ghost use Rattle.mgn_unit.specs.Rows.{nets_in};
ghost use Rattle.mgn_world.specs.World.{prepared_more};

use crate::phases::Gathering;
use mgn_params::{ParamSet, Version, Work};
use mgn_unit::{PreparedUnit, Row, Switch, is_unit_covered};
use std::alloc::{AllocError, Global};

impl Gathering {
    /// A set, and a copy of the nets of all units under the set of a version. An error says that memory was refused.
    pub(crate) fn new(
        alloc: Global,
        set: ParamSet,
        version: Version,
        rows: &[Row],
    ) -> Result<Gathering, AllocError>
        ensures { IfOk result (λ g. g ≡ record {
          set = set;
          version = version;
          nets = map nets_in rows.now;
          prepared = replicate (length rows.now) false;
        }) }
    {
        let mut nets = Vec::with_capacity(alloc, rows.len())?;
        let mut prepared = Vec::with_capacity(alloc, rows.len())?;
        for row in rows {
            nets.push_reserved(row.copy_nets(alloc)?);
            prepared.push_reserved(None);
        }
        Ok(Gathering {
            set,
            version,
            nets,
            prepared,
        })
    }

    /// Works out what a unit requires under the set, where there is such a unit and the set has each contract in which
    /// its nets are not 0. An error says that memory was refused.
    pub(crate) fn prepare(
        &mut self,
        alloc: Global,
        old: &ParamSet,
        unit: usize,
    ) -> Result<(), AllocError>
        requires nets { All (AreUnitNets old.now) self.old.nets }
        ensures { OnOk result (self.new ≡ prepared_more old.now unit self.old) }
    {
        let Some(nets) = self.nets.get(unit) else {
            return Ok(());
        };
        if !is_unit_covered(nets, old, &self.set) {
            return Ok(());
        }
        let switch = Switch::new(alloc, old, &self.set)?;
        let prepared = switch.prepare(alloc, nets, &mut Work::new())?;
        self.prepared[unit] = Some(prepared);
        Ok(())
    }

    /// The set, and what was prepared of units.
    pub(crate) fn into_parts(self) -> (ParamSet, Vec<Option<PreparedUnit>>)
        ensures set { result.0 ≡ self.set }
        ensures prepared { ArePrepared result.0 result.1.items }
    {
        (self.set, self.prepared)
    }
}
