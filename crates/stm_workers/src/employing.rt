//! The threads of a run: how they are started, and joined.
ghost use Rattle.std.specs.Prelude.{◌≡◌, ◌+◌, ◌≤◌, ◌<◌, vec_len, vec_capacity, IfErr, OnOk};
ghost use Rattle.stm_job.specs.Seats.{seat_view, table_id, table_size};
ghost use Rattle.stm_workers.specs.declared.thread_fault.ThreadFault.TheVariants.{OutOfMemory, Spawn};

use crate::gate::Gate;
use crate::locked::RunOfJobs;
use crate::shared::Shared;
use crate::thread_fault::ThreadFault;
use crate::worker::{Collected, Coordinator, RetiredWorker, Worker, WorkerStep};
use std::alloc::AllocError;
use std::sync::Wait;
use std::thread;
use std::thread::{JoinHandle, Scope, Threads};
use stm_job::JobTable;

/// Draws jobs, each of which the worker brings to its end, until there are none left.
fn draw_all<R: RunOfJobs, W: Wait, G: Gate>(
    shared: &Shared<'_, R, W, G>,
    worker: Worker<R>,
) -> Result<RetiredWorker<R>, AllocError> {
    let mut worker = worker;
    for _ in shared.rt.forever() {
        worker = match shared.next(worker)? {
            WorkerStep::Working(next) => next,
            WorkerStep::Retired(retired) => return Ok(retired),
        };
    }
    unreachable!()
}

/// What one worker does: it draws jobs until there are none left. Where an allocation fails, it gives the run up.
fn work<R: RunOfJobs, W: Wait, G: Gate>(
    shared: &Shared<'_, R, W, G>,
    worker: Worker<R>,
) -> Result<RetiredWorker<R>, AllocError> {
    let worked = draw_all(shared, worker);
    if worked.is_err() {
        shared.give_up();
    }
    worked
}

/// Starts a worker. What goes to its thread may: the hall under the lock, the programs of the jobs, and what the worker has.
fn start<'s, 'a: 's, E, R: RunOfJobs + Send + Sync, W: Wait + Sync, G: Gate + Sync>(
    scope: &Scope<'s, E>,
    shared: &'s Shared<'a, R, W, G>,
    worker: Worker<R>,
) -> Result<JoinHandle<Result<RetiredWorker<R>, AllocError>>, ThreadFault>
    ensures { IfErr result (λ fault. fault ≡ Spawn) }
{
    match scope.spawn(move || work(shared, worker)) {
        Ok(handle) => Ok(handle),
        Err(_) => Err(ThreadFault::Spawn),
    }
}

/// Starts the workers, for whose handles there is room. Where a thread can't be started, those that run are left to the caller.
fn start_all<'s, 'a: 's, E, R: RunOfJobs + Send + Sync, W: Wait + Sync, G: Gate + Sync>(
    scope: &Scope<'s, E>,
    shared: &'s Shared<'a, R, W, G>,
    workers: usize,
    coordinator: &mut Coordinator<R>,
    started: &mut Vec<JoinHandle<Result<RetiredWorker<R>, AllocError>>>,
) -> Result<(), ThreadFault>
    requires parts { coordinator.old.share.parts ≡ workers + 1 }
    requires passes { (seat_view coordinator.old.seat).left ≡ workers + 1 }
    requires none { vec_len started.old ≡ 0 }
    requires room { workers ≤ vec_capacity started.old }
    ensures started { OnOk result (vec_len started.new ≡ workers) }
    ensures parts { OnOk result (coordinator.new.share.parts ≡ 1) }
    ensures fault { IfErr result (λ fault. fault ≡ Spawn) }
{
    for _worker in 0..workers {
        let worker = coordinator.equip(shared.alloc, shared.table);
        let handle = start(scope, shared, worker)?;
        started.push_reserved(handle);
    }
    Ok(())
}

/// Gives a run up: its workers draw no other job, and are joined. What they hand back is dropped.
fn give_up<R: RunOfJobs, W: Threads + Wait, G: Gate>(
    shared: &Shared<'_, R, W, G>,
    started: Vec<JoinHandle<Result<RetiredWorker<R>, AllocError>>>,
) {
    shared.give_up();
    let mut started = started;
    while let Some(handle) = started.pop() {
        drop(handle.join(shared.rt));
    }
}

/// Joins a worker, and takes in what it hands back. `AllocError`: an allocation failed, in the worker or here.
fn join_one<R: RunOfJobs, W: Threads + Wait>(
    rt: &W,
    table: &JobTable,
    handle: JoinHandle<Result<RetiredWorker<R>, AllocError>>,
    coordinator: &mut Coordinator<R>,
) -> Result<(), AllocError>
    requires { (table_id table.now ≡ R.table) × (table_size table.now ≡ R.size) }
    ensures past { OnOk result ((seat_view coordinator.new.seat).past ≡ (seat_view coordinator.old.seat).past + 1) }
    ensures parts { OnOk result (coordinator.new.share.parts ≡ coordinator.old.share.parts + 1) }
{
    let retired = handle.join(rt)?;
    coordinator.take_in(table, retired)
}

/// Joins the workers, and takes in what they hand back. At the first fault the others draw no other job, and are joined too. `OutOfMemory` is the
/// only one: an allocation failed, in a worker or here.
fn join_all<R: RunOfJobs, W: Threads + Wait, G: Gate>(
    shared: &Shared<'_, R, W, G>,
    started: Vec<JoinHandle<Result<RetiredWorker<R>, AllocError>>>,
    coordinator: Coordinator<R>,
) -> Result<Collected<R>, ThreadFault>
    requires parts { coordinator.share.parts + vec_len started ≡ R.size.seats }
    requires some { 0 < vec_len started }
    ensures { IfErr result (λ fault. fault ≡ OutOfMemory) }
{
    let mut coordinator = coordinator;
    let mut started = started;
    while let Some(handle) = started.pop() {
        match join_one(shared.rt, shared.table, handle, &mut coordinator) {
            Ok(()) => {}
            Err(AllocError) => {
                give_up(shared, started);
                return Err(ThreadFault::OutOfMemory);
            }
        }
    }
    Ok(Collected::of(coordinator))
}

/// Starts the workers, and joins them. All threads have ended when it returns, and each was joined. Room for their handles is made before the first
/// of them starts.
pub(crate) fn employ<R: RunOfJobs + Send + Sync, W: Threads + Wait + Sync, G: Gate + Sync>(
    shared: &Shared<'_, R, W, G>,
    workers: usize,
    coordinator: Coordinator<R>,
) -> Result<Collected<R>, ThreadFault>
    requires workers { (1 ≤ workers) × (R.size.seats ≡ workers + 1) }
    requires parts { coordinator.share.parts ≡ workers + 1 }
    requires passes { (seat_view coordinator.seat).left ≡ workers + 1 }
{
    thread::scope(
        thread::scope_env(),
        shared.rt,
        move |scope| -> Result<Collected<R>, ThreadFault>
            requires { (1 ≤ workers) × (R.size.seats ≡ workers + 1) × (coordinator.share.parts ≡ workers + 1)
                × ((seat_view coordinator.seat).left ≡ workers + 1) }
        {
            let mut coordinator = coordinator;
            let mut started = Vec::with_capacity(shared.alloc, workers)?;
            match start_all(scope, shared, workers, &mut coordinator, &mut started) {
                Ok(()) => join_all(shared, started, coordinator),
                Err(fault) => {
                    give_up(shared, started);
                    Err(fault)
                }
            }
        },
    )
}
