//! What is worked out for a switch before its commit, on copies of the nets of all units.

ghost use Rattle.std.specs.Prelude.{◌≡◌, ◌<◌, ◌≤◌, All, IfOk};
ghost use Rattle.mgn_nets.specs.Portfolios.{AreUnitNets};
ghost use Rattle.mgn_unit.specs.NewSets.{ArePrepared};
ghost use Rattle.mgn_day.specs.Gathering.{AreReady, AreSeen};

use crate::gate::{Gate, SessionGate};
use crate::workers::Workers;
use mgn_day::{Gathered, Shows, whole_nets};
use mgn_ids::SessionNo;
use mgn_params::ParamSet;
use mgn_prepare::{mark_all, mark_alone};
use mgn_slots::{SlotNames, Stamp};
use mgn_unit::{PreparedUnit, PreparedUnits};
use std::alloc::{AllocError, Global};
use std::sync::Wait;
use std::thread::Threads;

/// What units require under a set, and for each the stamp since which it has the nets that this was worked out for.
#[derive(Drop)]
pub struct Prepared<'a, T: Shows, J: SlotNames> {
    /// What they require, by their numbers.
    pub units: PreparedUnits,
    /// The stamps, by the numbers of the units.
    pub since: Vec<Stamp<'a, T, J>>,
}

impl<'a, T: Shows, J: SlotNames> Prepared<'a, T, J> {
    // An error says that memory was refused.
    fn new(
        alloc: Global,
        units: Vec<Option<PreparedUnit>>,
        since: Vec<Stamp<'a, T, J>>,
    ) -> Result<Prepared<'a, T, J>, AllocError>
        ensures { IfOk result (λ prepared.
            (prepared.units.units.items ≡ units.items) × (prepared.since.items ≡ since.entry.items)) }
    {
        let current = vec![in alloc; false; units.len()]?;
        Ok(Prepared {
            units: PreparedUnits {
                units,
                current,
                spent: Vec::new(alloc),
            },
            since,
        })
    }

    /// What all units require under a set, by up to so many workers that are started for it. An error says that memory
    /// was refused.
    pub fn by_threads<R: Threads + Wait + Sync, G: Gate + Sync>(
        rt: &R,
        alloc: Global,
        gathered: Gathered<'a, T, J>,
        set: &ParamSet,
        workers: usize,
        gate: &SessionGate<'_, G>,
    ) -> Result<Prepared<'a, T, J>, AllocError>
        requires copied { All (AreUnitNets gathered.set.now) gathered.nets.items }
        requires seen { AreSeen T.shown gathered.set.now gathered.nets.items gathered.since.items }
        requires some { 0 < workers }
        requires few { workers ≤ 64 }
        ensures prepared { IfOk result (λ prepared. ArePrepared set.now prepared.units.units.items) }
        ensures ready { IfOk result (λ prepared.
            AreReady T.shown set.now prepared.units.units.items prepared.since.items) }
    {
        let Gathered {
            set: old,
            nets,
            since,
        } = gathered;
        let nets = whole_nets(alloc, nets)?;
        let units = mark_all(rt, alloc, old, set, nets, workers, gate)?;
        Prepared::new(alloc, units, since)
    }

    /// The same, by workers that are lent.
    pub fn by_workers(
        alloc: Global,
        gathered: Gathered<'a, T, J>,
        set: &ParamSet,
        workers: &Workers,
        session: SessionNo,
    ) -> Result<Prepared<'a, T, J>, AllocError>
        requires copied { All (AreUnitNets gathered.set.now) gathered.nets.items }
        requires seen { AreSeen T.shown gathered.set.now gathered.nets.items gathered.since.items }
        ensures prepared { IfOk result (λ prepared. ArePrepared set.now prepared.units.units.items) }
        ensures ready { IfOk result (λ prepared.
            AreReady T.shown set.now prepared.units.units.items prepared.since.items) }
    {
        let Gathered {
            set: old,
            nets,
            since,
        } = gathered;
        let nets = whole_nets(alloc, nets)?;
        let units = workers.mark(session, old, set, nets)?;
        Prepared::new(alloc, units, since)
    }

    /// The same, by the caller alone.
    pub fn alone<G: Gate>(
        alloc: Global,
        gathered: Gathered<'a, T, J>,
        set: &ParamSet,
        gate: &SessionGate<'_, G>,
    ) -> Result<Prepared<'a, T, J>, AllocError>
        requires copied { All (AreUnitNets gathered.set.now) gathered.nets.items }
        requires seen { AreSeen T.shown gathered.set.now gathered.nets.items gathered.since.items }
        ensures prepared { IfOk result (λ prepared. ArePrepared set.now prepared.units.units.items) }
        ensures ready { IfOk result (λ prepared.
            AreReady T.shown set.now prepared.units.units.items prepared.since.items) }
    {
        let Gathered {
            set: old,
            nets,
            since,
        } = gathered;
        let nets = whole_nets(alloc, nets)?;
        let units = mark_alone(alloc, old, set, nets.as_slice(), gate)?;
        Prepared::new(alloc, units, since)
    }
}
