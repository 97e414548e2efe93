ghost use Rattle.std.specs.Prelude.{ℕ, ◌≡◌, ◌<◌, ◌≤◌, length, map, slice_index_or, All, IfOk, Ok};
ghost use Rattle.mgn_nets.specs.Portfolios.{AreUnitNets};
ghost use Rattle.mgn_unit.specs.NewSets.{ArePrepared};
ghost use Rattle.mgn_prepare.specs.Jobs.{IsDone};
ghost use Rattle.mgn_prepare.specs.Marks.{mark_of};

use crate::marker::Marker;
use mgn_params::ParamSet;
use mgn_unit::{CopiedNets, PreparedUnit};
use std::alloc::{AllocError, Global};
use std::thread;
use std::thread::Threads;

/// What workers pass, as a test or a service asks for.
pub trait UnitGate {
    /// A worker passes it once before each unit, by the unit's number, and waits here for as long as this does.
    fn before(&self, unit: usize);
}

// What a worker is handed of a unit: its nets, and its mark once that is worked out.
#[derive(Drop)]
pub(crate) struct Job {
    nets: CopiedNets,
    mark: Result<Option<PreparedUnit>, AllocError>,
}

// A job for each unit.
fn jobs_of(alloc: Global, nets: Vec<CopiedNets>) -> Result<Vec<Job>, AllocError>
    ensures { IfOk result (λ jobs. map (λ job. job.nets) jobs.items ≡ nets.items) }
{
    let mut jobs = Vec::with_capacity(alloc, nets.len())?;
    for one in nets {
        jobs.push(Job {
            nets: one,
            mark: Ok(None),
        })?;
    }
    Ok(jobs)
}

// Has all jobs done, each by one of at most so many workers.
fn do_all<R: Threads + Sync, G: UnitGate + Sync>(
    rt: &R,
    marker: &Marker<'_>,
    jobs: &mut [Job],
    workers: usize,
    gate: &G,
)
    requires workers { 0 < workers }
    requires nets { All (λ job. AreUnitNets marker.now.old.now job.nets) jobs.old }
    ensures done { (u : ℕ) (d : _) → u < length jobs.old →
        IsDone marker.now.old.now marker.now.new.now (slice_index_or jobs.old u d) (slice_index_or jobs.new u d) }
    ensures long { length jobs.new ≡ length jobs.old }
{
    thread::for_each_mut(
        rt,
        jobs,
        workers,
        &|unit: usize, job: &mut Job|
            requires { AreUnitNets marker.now.old.now job.old.nets }
            ensures { IsDone marker.entry.now.old.now marker.entry.now.new.now job.old job.new }
        {
            gate.before(unit);
            job.mark = marker.mark(&job.nets);
        },
    );
}

// The same, of a list that grows.
fn do_list<R: Threads + Sync, G: UnitGate + Sync>(
    rt: &R,
    marker: &Marker<'_>,
    jobs: &mut Vec<Job>,
    workers: usize,
    gate: &G,
)
    requires workers { 0 < workers }
    requires nets { All (λ job. AreUnitNets marker.now.old.now job.nets) jobs.old.items }
    ensures done { (u : ℕ) (d : _) → u < length jobs.old.items →
        IsDone marker.now.old.now marker.now.new.now (slice_index_or jobs.old.items u d) (slice_index_or jobs.new.items u d) }
    ensures long { length jobs.new.items ≡ length jobs.old.items }
{
    do_all(rt, marker, jobs.as_mut_slice(), workers, gate);
}

// The marks of jobs that are done. An error says that memory was refused, here or to one of them.
fn marks_of(alloc: Global, jobs: Vec<Job>) -> Result<Vec<Option<PreparedUnit>>, AllocError>
    ensures { IfOk result (λ marks. map Ok marks.items ≡ map (λ job. job.mark) jobs.items) }
{
    let mut marks = Vec::with_capacity(alloc, jobs.len())?;
    for job in jobs {
        marks.push(job.mark?)?;
    }
    Ok(marks)
}

/// What units with these nets under the old set require under the new one, by the contracts' names, one answer for each
/// unit and in their order; none for a unit with a net that is not 0 in a contract that the new set lacks. Up to so
/// many workers, 1 to 64, share the units; the answer is the same for every number of them. A worker that cannot be
/// started has its share done by the caller. It returns once all workers have come to their end. An error says that
/// memory was refused.
pub fn mark_all<R: Threads + Sync, G: UnitGate + Sync>(
    rt: &R,
    alloc: Global,
    old: &ParamSet,
    new: &ParamSet,
    nets: Vec<CopiedNets>,
    workers: usize,
    gate: &G,
) -> Result<Vec<Option<PreparedUnit>>, AllocError>
    requires some { 0 < workers }
    requires few { workers ≤ 64 }
    requires nets { All (AreUnitNets old.now) nets.items }
    ensures marks { IfOk result (λ marks. marks.items ≡ map (mark_of old.now new.now) nets.items) }
    ensures prepared { IfOk result (λ marks. ArePrepared new.now marks.items) }
{
    let marker = Marker::new(alloc, old, new)?;
    let mut jobs = jobs_of(alloc, nets)?;
    do_list(rt, &marker, &mut jobs, workers, gate);
    marks_of(alloc, jobs)
}
