ghost use Rattle.std.specs.Prelude.{◌≡◌, All, map};
ghost use Rattle.std.specs.Result.{ForOk};
ghost use Rattle.mgn_nets.specs.Portfolios.{AreUnitNets};
ghost use Rattle.mgn_unit.specs.NewSets.{ArePrepared};
ghost use Rattle.mgn_prepare.specs.Marks.{mark_of};

use mgn_ids::SessionNo;
use mgn_params::ParamSet;
use mgn_prepare::mark_all;
use mgn_service::{SessionGate, Through};
use mgn_unit::{CopiedNets, PreparedUnit};
use std::alloc::AllocError;
use std::thread::Threads;

/// How many workers share the units of a switch.
pub(crate) const WORKERS: usize = 4;

/// What units with these nets under the set in force require under a new one, by the workers of the server. An error
/// says that memory was refused.
pub fn mark<R: Threads + AllocGlobal + Sync>(
    rt: &R,
    session: SessionNo,
    old: &ParamSet,
    new: &ParamSet,
    nets: Vec<CopiedNets>,
) -> Result<Vec<Option<PreparedUnit>>, AllocError>
    requires { All (AreUnitNets old.now) nets.items }
    ensures marks { ForOk result (λ units. units.items ≡ map (mark_of old.now new.now) nets.items) }
    ensures prepared { ForOk result (λ units. ArePrepared new.now units.items) }
{
    let gate = SessionGate {
        gate: &Through,
        session,
    };
    mark_all(rt, rt.alloc(), old, new, nets, WORKERS, &gate)
}
