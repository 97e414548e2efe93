//! What is worked out for a switch before its commit, on copies of the nets of all units.

ghost use Rattle.std.specs.Prelude.{IfOk};
ghost use Rattle.mgn_unit.specs.NewSets.{ArePrepared};
ghost use Rattle.mgn_day.specs.Gathering.{AreReady};

use crate::service::Service;
use crate::waits::hold;
use mgn_ids::SessionNo;
use mgn_ledger::Image;
use mgn_params::ParamSet;
use mgn_slots::SlotNames;
use mgn_table::TableName;
use mgn_unit_desk::{Gate, Prepared, SessionGate, Workers};
use std::alloc::AllocError;
use std::sync::Wait;
use std::thread::Threads;

impl<'a, T: Image, J: TableName + SlotNames> Service<'a, T, J> {
    // What all units require under a set, by workers that are started for it. An error says that memory was refused.
    pub(crate) fn prepare<R: Threads + Wait + Sync, G: Gate + Sync>(
        &self,
        rt: &R,
        session: SessionNo,
        gate: &G,
        set: &ParamSet,
    ) -> Result<Prepared<'a, T, J>, AllocError>
        ensures prepared { IfOk result (λ prepared. ArePrepared set.now prepared.units.units.items) }
        ensures ready { IfOk result (λ prepared.
            AreReady T.shown set.now prepared.units.units.items prepared.since.items) }
    {
        let gathered = hold(rt, &self.ledger).gather(self.alloc)?;
        let gate = SessionGate { gate, session };
        Prepared::by_threads(rt, self.alloc, gathered, set, self.workers, &gate)
    }

    // The same, by workers that are lent.
    pub(crate) fn prepare_by<R: Wait>(
        &self,
        rt: &R,
        session: SessionNo,
        workers: &Workers,
        set: &ParamSet,
    ) -> Result<Prepared<'a, T, J>, AllocError>
        ensures prepared { IfOk result (λ prepared. ArePrepared set.now prepared.units.units.items) }
        ensures ready { IfOk result (λ prepared.
            AreReady T.shown set.now prepared.units.units.items prepared.since.items) }
    {
        let gathered = hold(rt, &self.ledger).gather(self.alloc)?;
        Prepared::by_workers(self.alloc, gathered, set, workers, session)
    }

    // The same, by the caller alone.
    pub(crate) fn prepare_alone<R: Wait, G: Gate>(
        &self,
        rt: &R,
        session: SessionNo,
        gate: &G,
        set: &ParamSet,
    ) -> Result<Prepared<'a, T, J>, AllocError>
        ensures prepared { IfOk result (λ prepared. ArePrepared set.now prepared.units.units.items) }
        ensures ready { IfOk result (λ prepared.
            AreReady T.shown set.now prepared.units.units.items prepared.since.items) }
    {
        let gathered = hold(rt, &self.ledger).gather(self.alloc)?;
        let gate = SessionGate { gate, session };
        Prepared::alone(self.alloc, gathered, set, &gate)
    }
}
