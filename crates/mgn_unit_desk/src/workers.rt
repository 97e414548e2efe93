ghost use Rattle.std.specs.Prelude.{◌≡◌, All, map};
ghost use Rattle.std.specs.Result.{ForOk};
ghost use Rattle.mgn_nets.specs.Portfolios.{AreUnitNets};
ghost use Rattle.mgn_unit.specs.NewSets.{ArePrepared};
ghost use Rattle.mgn_prepare.specs.Marks.{mark_of};

use mgn_ids::SessionNo;
use mgn_params::ParamSet;
use mgn_unit::{CopiedNets, PreparedUnit};
use std::alloc::AllocError;

/// What works out what units require under a new set: given the session whose switch it is, the set in force, the new
/// set and the nets of the units under the set in force.
pub type Marking = Box<
    dyn Fn(
        SessionNo,
        &ParamSet,
        &ParamSet,
        Vec<CopiedNets>,
    ) -> Result<Vec<Option<PreparedUnit>>, AllocError>
        + Send
        + Sync
        + Drop,
>;

/// Workers that the switches of a service's sessions share. They are lent to each session; it does not start them
/// itself.
#[derive(Drop)]
pub struct Workers {
    marking: Marking,
    ghost may: { (session : _) (old new : _) (nets : _) → All (AreUnitNets old.now) nets.items → pre marking session old new nets },
    ghost marks: { (session : _) (old new : _) (nets : _) (result : _) → post marking session old new nets result
        → ForOk result (λ units. units.items ≡ map (mark_of old.now new.now) nets.items) },
    ghost gives: { (session : _) (old new : _) (nets : _) (result : _) → post marking session old new nets result
        → ForOk result (λ units. ArePrepared new.now units.items) },
}

impl Workers {
    /// Workers who go by this.
    pub fn new(marking: Marking) -> Workers
        requires may { (session : _) (old new : _) (nets : _) → All (AreUnitNets old.now) nets.items
            → pre marking session old new nets }
        requires marks { (session : _) (old new : _) (nets : _) (result : _) → post marking session old new nets result
            → ForOk result (λ units. units.items ≡ map (mark_of old.now new.now) nets.items) }
        requires gives { (session : _) (old new : _) (nets : _) (result : _) → post marking session old new nets result
            → ForOk result (λ units. ArePrepared new.now units.items) }
    {
        Workers { marking }
    }

    /// What units require under a new set. An error says that memory was refused.
    pub fn mark(
        &self,
        session: SessionNo,
        old: &ParamSet,
        new: &ParamSet,
        nets: Vec<CopiedNets>,
    ) -> Result<Vec<Option<PreparedUnit>>, AllocError>
        requires { All (AreUnitNets old.now) nets.items }
        ensures marks { ForOk result (λ units. units.items ≡ map (mark_of old.now new.now) nets.items) }
        ensures prepared { ForOk result (λ units. ArePrepared new.now units.items) }
    {
        (self.marking)(session, old, new, nets)
    }
}
