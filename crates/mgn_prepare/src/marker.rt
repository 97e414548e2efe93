//! What one unit is marked with.

ghost use Rattle.std.specs.Prelude.{◌≡◌, IfOk, IfSome};
ghost use Rattle.mgn_nets.specs.Portfolios.{AreUnitNets};
ghost use Rattle.mgn_unit.specs.NewSets.{IsPrepared};
ghost use Rattle.mgn_prepare.specs.Marks.{mark_of};

use mgn_params::{ParamSet, Work};
use mgn_unit::{CopiedNets, PreparedUnit, Switch, is_unit_covered};
use std::alloc::{AllocError, Global};

/// What all workers share: the set in force, the one that is to come, and where the contracts of each stand in the
/// other.
#[derive(Drop)]
pub(crate) struct Marker<'a> {
    alloc: Global,
    pub(crate) old: &'a ParamSet,
    pub(crate) new: &'a ParamSet,
    switch: Switch<'a>,
    ghost from_old: { switch.old ≡ old.now },
    ghost to_new: { switch.new ≡ new.now },
}

impl<'a> Marker<'a> {
    // An error says that memory was refused.
    pub(crate) fn new(
        alloc: Global,
        old: &'a ParamSet,
        new: &'a ParamSet,
    ) -> Result<Marker<'a>, AllocError>
        ensures old { IfOk result (λ marker. marker.old.now ≡ old.now) }
        ensures new { IfOk result (λ marker. marker.new.now ≡ new.now) }
    {
        let switch = Switch::new(alloc, old, new)?;
        Ok(Marker {
            alloc,
            old,
            new,
            switch,
        })
    }

    // What a unit with these nets under the old set is marked with. An error says that memory was refused.
    pub(crate) fn mark(&self, nets: &CopiedNets) -> Result<Option<PreparedUnit>, AllocError>
        requires { AreUnitNets self.now.old.now nets.now }
        ensures mark { IfOk result (λ mark. mark ≡ mark_of self.now.old.now self.now.new.now nets.now) }
        ensures prepared { IfOk result (λ mark. IfSome mark (IsPrepared self.now.new.now)) }
    {
        if !is_unit_covered(nets, self.old, self.new) {
            return Ok(None);
        }
        let one = self.switch.prepare(self.alloc, nets, &mut Work::new())?;
        Ok(Some(one))
    }
}
