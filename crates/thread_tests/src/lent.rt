//! Switches that workers work out who are lent to the service, while another session's command commits.

ghost use Rattle.std.specs.Prelude.{◌≡◌, All, map};
ghost use Rattle.std.specs.Result.{ForOk};
ghost use Rattle.mgn_nets.specs.Portfolios.{AreUnitNets};
ghost use Rattle.mgn_unit.specs.NewSets.{ArePrepared};
ghost use Rattle.mgn_prepare.specs.Marks.{mark_of};

use crate::sessions::{LATE_LOT, SWITCH_BETWEEN, check_late_lot, check_switch_between, staged};
use mgn_ids::SessionNo;
use mgn_params::ParamSet;
use mgn_prepare::mark_all;
use mgn_service::{SessionGate, Through, Workers};
use mgn_unit::{CopiedNets, PreparedUnit};
use std::alloc::AllocError;
use std::process::Abort;
use std::sync::Wait;
use std::test::Fail;
use std::thread::Threads;
use std::time::Clock;

/// How many of them there are.
const LENT: usize = 2;

// An order finds no unit late, and a lot that came meanwhile one.
fn meet<R: Threads + Wait + Clock + Abort + AllocGlobal + Sync>(
    rt: &R,
    workers: &Workers,
) -> Result<(), Fail> {
    check_switch_between(rt, &staged(rt, rt.alloc(), workers, &SWITCH_BETWEEN)?);
    check_late_lot(rt, &staged(rt, rt.alloc(), workers, &LATE_LOT)?);
    Ok(())
}

#[test]
fn commands_meet_switches_by_lent_workers(rt: HostRuntime) -> Result<(), Fail> {
    let marking = move |session: SessionNo, old: &ParamSet, new: &ParamSet, nets: Vec<
        CopiedNets,
    >| -> Result<Vec<Option<PreparedUnit>>, AllocError>
        requires { All (AreUnitNets old.now) nets.items }
        ensures marks { ForOk result (λ units. units.items ≡ map (mark_of old.now new.now) nets.items) }
        ensures prepared { ForOk result (λ units. ArePrepared new.now units.items) }
    {
        let gate = SessionGate {
            gate: &Through,
            session,
        };
        mark_all(&rt, rt.alloc(), old, new, nets, LENT, &gate)
    };
    let Ok(marking) = Box::new(rt.alloc(), marking) else {
        return Err("memory".into());
    };
    meet(&rt, &Workers::new(marking))
}
