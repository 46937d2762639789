//! The run of jobs by several threads.
ghost use Rattle.std.specs.Prelude.{◌≡◌, ◌+◌, ◌≤◌, ◌<◌, length, count_by, IfOk, IfErr, IfNone, IfSome};
ghost use Rattle.stm_job.specs.Draw.{size_of, newcomer};
ghost use Rattle.stm_job.specs.Seats.{IsSeatAt, seat_view, table_id, table_size};
ghost use Rattle.stm_job.specs.Ends.{is_committed};
ghost use Rattle.stm_workers.specs.Commits.{commits_in, TookCommitsOf};
ghost use Rattle.stm_workers.specs.Calls.{HasGoneOn, HasKeptStore};
ghost use Rattle.stm_workers.specs.Drawn.{HasDrawnAll};
ghost use Rattle.stm_workers.specs.Ends.{start_point, StandsAt, AllStand};
ghost use Rattle.stm_workers.specs.Runs.{HaveTheirRuns};
ghost use Rattle.stm_workers.specs.Gathered.{RanTo, OnAudit, BrokeOff};

use crate::auditing::audit;
use crate::employing::employ;
use crate::gate::Gate;
use crate::locked::{Locked, RunOfJobs};
use crate::placing::{Placed, place_ends};
use crate::shared::Shared;
use crate::start_point::StartPoint;
use crate::thread_fault::ThreadFault;
use crate::worker::Coordinator;
use std::alloc::{AllocError, Global};
use std::marker::Brand;
use std::sync::atomic::AtomicBool;
use std::sync::ledger::Blank;
use std::sync::{Mutex, Wait};
use std::thread::Threads;
use stm_hall::Hall;
use stm_job::{FaultCause, Gathered, Job, JobEnd, JobSeat, JobTable, RunFault};

/// How many workers there may be.
pub const MOST_WORKERS: usize = 16;

/// One run, with its own table and its own ledger. It answers the ends of all jobs in their places, and the hall.
fn run_on<R: RunOfJobs + Send + Sync, W: Threads + Wait + Sync, G: Gate + Sync>(
    rt: &W,
    alloc: Global,
    jobs: &[Job],
    workers: usize,
    hall: Hall,
    gate: &G,
    blank: Blank,
    table: &JobTable,
    seat: JobSeat,
) -> (Result<Placed, ThreadFault>, Hall)
    requires workers { 1 ≤ workers }
    requires ledger { (blank.name ≡ R.name) × (blank.parts ≡ R.parts) × (R.parts ≡ workers + 1) }
    requires table { (table_id table.now ≡ R.table) × (table_size table.now ≡ R.size) × (R.size ≡ size_of (length jobs.now) (workers + 1)) }
    requires seat { IsSeatAt R.table R.size seat × (seat_view seat ≡ newcomer R.size) }
    requires hall { hall ≡ R.before }
    requires jobs { jobs.now ≡ R.jobs }
    ensures gone_on { HasGoneOn hall result.1 }
    ensures kept { HasKeptStore hall result.1 }
    ensures takes { TookCommitsOf jobs.now hall result.1 }
    ensures places { IfOk result.0 (λ placed. (length placed.ends.items ≡ length jobs.now) × (length placed.lost.items ≡ length jobs.now)) }
    ensures commits { IfOk result.0 (λ placed. commits_in result.1.entries ≡ commits_in hall.entries + count_by is_committed placed.ends.items) }
    ensures ran { IfOk result.0 (λ placed. HaveTheirRuns hall jobs.now placed.ends.items placed.lost.items) }
    ensures drawn { IfOk result.0 (λ placed. HasDrawnAll (size_of (length jobs.now) (workers + 1)) placed.seat) }
{
    let (book, share) = blank.open::<R>();
    let locked = Mutex::new(Locked::new(hall, book));
    let coordinator = Coordinator::new(alloc, seat, share);
    let given_up = AtomicBool::new(false);
    let shared = Shared::new(rt, alloc, &locked, table, jobs, gate, &given_up);
    let employed = employ(&shared, workers, coordinator);
    let locked = locked.into_inner();
    match employed {
        Ok(collected) => {
            let (mut share, ended, seat) = collected.into_pieces();
            (place_ends(alloc, ended, seat), locked.close(&mut share))
        }
        Err(fault) => (Err(fault), locked.into_hall()),
    }
}

/// How many of these ends are commits.
fn count_committed(ends: &[JobEnd]) -> usize
    ensures { result ≡ count_by is_committed ends.now }
{
    ends.iter().filter(|end| end.is_committed()).count()
}

/// What was gathered, where each end stands.
fn gathered_of(placed: Placed, committed: usize, hall: Hall) -> Gathered
    ensures ends { (result.ends.items ≡ placed.ends.items) × (result.lost.items ≡ placed.lost.items) }
    ensures others { (result.committed ≡ committed) × (result.seat ≡ placed.seat) × (result.hall ≡ hall) }
{
    Gathered {
        ends: placed.ends,
        lost: placed.lost,
        committed,
        seat: placed.seat,
        hall,
    }
}

/// The fault of a run that was broken off for another cause. It takes no memory.
fn broken_off(alloc: Global, cause: FaultCause, hall: Hall) -> RunFault
    ensures { (result.cause ≡ cause) × (result.hall ≡ hall) }
{
    RunFault {
        cause,
        ends: Vec::new(alloc),
        hall,
    }
}

/// Why a run is broken off, all jobs of which have these ends: the audit names a job, or there is no memory for it.
fn find_cause(
    alloc: Global,
    jobs: &[Job],
    ends: &[JobEnd],
    start: StartPoint,
    hall: &Hall,
) -> Option<FaultCause>
    requires { length ends.now ≡ length jobs.now }
    ensures stand { IfNone result (AllStand start hall.now jobs.now ends.now) }
    ensures cause { IfSome result (λ cause. OnAudit cause (λ job. (job < length jobs.now) × (StandsAt start hall.now jobs.now ends.now job → ⊥))) }
{
    match audit(alloc, jobs, ends, start, hall) {
        Ok(None) => None,
        Ok(Some(job)) => Some(FaultCause::Audit { job }),
        Err(AllocError) => Some(FaultCause::OutOfMemory),
    }
}

/// The fault of a run that was broken off once its ends were gathered.
fn at_fault(placed: Placed, cause: FaultCause, hall: Hall) -> RunFault
    ensures { (result.cause ≡ cause) × (result.ends.items ≡ placed.ends.items) × (result.hall ≡ hall) }
{
    RunFault {
        cause,
        ends: placed.ends,
        hall,
    }
}

/// What the audit says of the ends.
fn gather(
    alloc: Global,
    jobs: &[Job],
    start: StartPoint,
    placed: Placed,
    hall: Hall,
) -> Result<Gathered, RunFault>
    requires { length placed.ends.items ≡ length jobs.now }
    ensures hall { IfOk result (λ gathered. gathered.hall ≡ hall) }
    ensures broken { IfErr result (λ fault. fault.hall ≡ hall) }
    ensures ends { IfOk result (λ gathered. (gathered.ends.items ≡ placed.ends.items) × (gathered.lost.items ≡ placed.lost.items)) }
    ensures committed { IfOk result (λ gathered. gathered.committed ≡ count_by is_committed placed.ends.items) }
    ensures seat { IfOk result (λ gathered. gathered.seat ≡ placed.seat) }
    ensures stand { IfOk result (λ gathered. AllStand start hall jobs.now placed.ends.items) }
    ensures cause { IfErr result (λ fault. OnAudit fault.cause (λ job. (job < length jobs.now) × (length fault.ends.items ≡ length jobs.now)
        × (StandsAt start hall jobs.now fault.ends.items job → ⊥))) }
{
    let committed = count_committed(placed.ends.as_slice());
    match find_cause(alloc, jobs, placed.ends.as_slice(), start, &hall) {
        None => Ok(gathered_of(placed, committed, hall)),
        Some(cause) => Err(at_fault(placed, cause, hall)),
    }
}

/// The table of the jobs, with a seat for each worker and one for who starts them.
fn make_table(
    alloc: Global,
    jobs: &[Job],
    workers: usize,
) -> Result<(JobTable, JobSeat), AllocError>
    requires { workers ≤ MOST_WORKERS }
    ensures size { IfOk result (λ made. table_size made.0 ≡ size_of (length jobs.now) (workers + 1)) }
    ensures seat { IfOk result (λ made. IsSeatAt (table_id made.0) (table_size made.0) made.1 × (seat_view made.1 ≡ newcomer (table_size made.0))) }
{
    let made = JobTable::new(alloc, jobs.len(), workers + 1)?;
    Ok(made)
}

/// How far a hall has come.
fn start_of(hall: &Hall) -> StartPoint
    ensures { result ≡ start_point hall.now }
{
    StartPoint {
        entries: hall.entries().len(),
        revision: hall.revision(),
    }
}

/// Runs jobs on a hall by `workers` threads, from 1 to `MOST_WORKERS`.
///
/// A worker draws a job, evaluates it without the lock, and holds the lock for one fetch or one commit at a time. After a commit that failed a job is
/// attempted again, until it has sent as many commits as it may.
///
/// At `Ok` each job was drawn once and none is left out, as the seat that is handed back knows. Each job has its end at its place, to which it has
/// come as it should: each fetch was asked for with what its worker had seen, a program's list before anything else; it sent at most as many commits
/// as it may, and it gave up only where that many failed; what refused a call of it was a store with the limit of operations of the one that was
/// handed in (`HasCome` of the specs). With its end stand the keys over which its commits failed before its last attempt, one for each, in their order: its attempts
/// are one more, at most that limit (`laws::attempts_are_counted`). Each end stands in the hall, and the hall has the entries that it had, with one commit for
/// each job that committed, and nothing else; of its store the history alone has changed: floor, limit, leases, their terms, the moment and the
/// watchers are as they were. What a job at a serializable level had read when it aborted or came to a fault is of one state of the hall's history
/// since it was handed in, and its program, run alone on that state, ends so (`laws::stops_are_of_one_state`).
///
/// `OutOfMemory`: an allocation failed, in a worker, in the hall, or here. `Spawn`: a thread could not be started. At the first of these the workers
/// draw no other job. `Audit`: of the ends that are handed back with it, that of this job does not stand. At each of these all threads have ended and
/// were joined, and the hall has what was committed until then, all of it of these jobs. Nothing is said of which job goes first, nor that it
/// returns.
pub fn run_workers<W: Threads + Wait + Sync, G: Gate + Sync>(
    rt: &W,
    alloc: Global,
    jobs: &[Job],
    workers: usize,
    hall: Hall,
    gate: &G,
) -> Result<Gathered, RunFault>
    requires { (1 ≤ workers) × (workers ≤ MOST_WORKERS) }
    ensures ok { IfOk result (λ gathered. RanTo hall jobs.now gathered.ends.items gathered.lost.items gathered.committed gathered.hall) }
    ensures drawn { IfOk result (λ gathered. HasDrawnAll (size_of (length jobs.now) (workers + 1)) gathered.seat) }
    ensures fault { IfErr result (λ fault. BrokeOff hall jobs.now fault.cause fault.ends.items fault.hall) }
{
    let start = start_of(&hall);
    let Ok((table, seat)) = make_table(alloc, jobs, workers) else {
        return Err(broken_off(alloc, FaultCause::OutOfMemory, hall));
    };
    let blank = Blank::new(workers as u64 + 1);
    let (placed, hall) = run_on::<Brand, W, G>(
        rt, alloc, jobs, workers, hall, gate, blank, &table, seat,
    );
    match placed {
        Ok(placed) => match gather(alloc, jobs, start, placed, hall) {
            Ok(gathered) => Ok(gathered),
            Err(fault) => Err(fault),
        },
        Err(fault) => Err(broken_off(alloc, fault.cause(), hall)),
    }
}
