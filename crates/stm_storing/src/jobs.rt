//! Running a scenario of jobs over the world of a file, by several threads, and making what they changed last.
ghost use Rattle.std.specs.Prelude.{◌≡◌, ◌≤◌, Ok as OkOf, length, map, IfOk, IfErr, OnOk, IsTrue, true, false, string_bytes};
ghost use Rattle.stm_history.specs.History.{now};
ghost use Rattle.stm_records.specs.Disk.{Only, LeavesOnly};
ghost use Rattle.stm_records.specs.RecordFiles.{IsSettled};
ghost use Rattle.stm_lasting.specs.Kept.{IsKept, IsReady};
ghost use Rattle.stm_job_texts.specs.Lines.{AreLinesOf};
ghost use Rattle.stm_journal.specs.JournalState.{made_over};
ghost use Rattle.stm_txn.specs.Standing.{kept};
ghost use Rattle.stm_world.specs.World.{opened as opened_world, world_after};
ghost use Rattle.stm_workers.specs.Gathered.{RanTo};
ghost use Rattle.stm_workers.specs.declared.run.TheConstants.{MOST_WORKERS};
ghost use Rattle.stm_texts.specs.Opens.{setup_of, IsOpening};
ghost use Rattle.stm_texts.specs.Reading.{scenario_in};
ghost use Rattle.stm_storing.specs.Storing.{LeavesAroundRun, LeavesFoundOrRun};
ghost use Rattle.stm_storing.specs.Jobs.{event_of, AreAlikeSince, HasRunOver, HasRunAndKept, HasRunJobs};

use crate::changes_text::changes_text;
use crate::fault::StoreFault;
use crate::jobs_input::JobsAsked;
use crate::likeness::are_alike_since;
use crate::running::read;
use crate::scripting::{go_on_over, opened, print_text, ready_world};
use std::alloc::{AllocError, Global};
use std::mem::replace;
use std::sync::Wait;
use std::thread::Threads;
use stm_alike::leave_same_leases;
use stm_devices::Sink;
use stm_hall::Hall;
use stm_history::Sequence;
use stm_job::{FaultCause, Gathered, Job, JobEnd, RunFault};
use stm_job_texts::{StoreCall, lines};
use stm_lasting::{Disk, Kept, RecordFile, World};
use stm_report::{Opening, Scenario, WorldEvent};
use stm_texts::opens_with;
use stm_workers::{NoGate, run_workers};

/// A run of jobs, and the world over whose store they were run.
#[derive(Drop)]
struct Ran {
    /// What it came to.
    gathered: Gathered,
    /// The world: it has taken the calls.
    begun: World,
}

/// What is printed and kept of a run of jobs.
#[derive(Drop)]
struct Written {
    /// The lines that are printed of it.
    lines: String,
    /// The text of the scenario that makes its changes.
    text: String,
    /// That scenario.
    scenario: Scenario,
}

/// A run of jobs that is to be kept.
#[derive(Drop)]
struct Done {
    /// What is printed and kept of it.
    written: Written,
    /// The end of each job, at its place.
    ends: Sequence<JobEnd>,
}

/// A call of the store, as an event of a world.
fn event_of(call: &StoreCall) -> Result<WorldEvent, AllocError>
    ensures { IfOk result (λ event. event ≡ event_of call.now) }
{
    match call {
        StoreCall::Txn { txn } => {
            let txn = txn.clone()?;
            Ok(WorldEvent::Txn { txn })
        }
        StoreCall::Grant { id, ttl } => Ok(WorldEvent::Grant { id: *id, ttl: *ttl }),
        StoreCall::Keep { id } => Ok(WorldEvent::Keep { id: *id }),
        StoreCall::Revoke { id } => Ok(WorldEvent::Revoke { id: *id }),
        StoreCall::Advance { now } => Ok(WorldEvent::Advance { now: *now }),
    }
}

/// Calls of the store, as events of a world.
fn events_of(alloc: Global, calls: &[StoreCall]) -> Result<Vec<WorldEvent>, AllocError>
    ensures { IfOk result (λ events. events.items ≡ map event_of calls.now) }
{
    let mut events = Vec::new(alloc);
    for call in calls {
        let event = event_of(call)?;
        events.push(event)?;
    }
    Ok(events)
}

/// A copy of a world, after these events.
fn copy_after(world: &World, events: &[WorldEvent]) -> Result<World, AllocError>
    ensures { IfOk result (λ copy. copy ≡ world_after events.now world.now) }
{
    let mut copy = world.copy()?;
    match copy.run(events) {
        Ok(_) => Ok(copy),
        Err(_) => {
            drop(copy);
            Err(AllocError)
        }
    }
}

/// Why a run was broken off. Its hall is dropped.
fn fault_of(broken: RunFault) -> StoreFault {
    let cause = broken.cause;
    drop(broken);
    match cause {
        FaultCause::OutOfMemory => StoreFault::OutOfMemory,
        FaultCause::Spawn => StoreFault::NoThread,
        FaultCause::Audit { job } => StoreFault::Audit(job as u64),
    }
}

/// A hall over a copy of the store of a world.
fn hall_over(alloc: Global, world: &World) -> Result<Hall, AllocError>
    ensures { IfOk result (λ hall. hall ≡ made_over (kept world.now.standing)) }
{
    let store = world.store().copy()?;
    Ok(Hall::new(alloc, store))
}

/// Runs jobs over a copy of the store of a world.
fn gathered_over<R: Threads + Wait + Sync>(
    rt: &R,
    alloc: Global,
    world: &World,
    jobs: &[Job],
    workers: usize,
) -> Result<Gathered, StoreFault>
    requires workers { (1 ≤ workers) × (workers ≤ MOST_WORKERS) }
    ensures { IfOk result (λ g. RanTo (made_over (kept world.now.standing)) jobs.now g.ends.items g.lost.items g.committed g.hall) }
{
    let hall = hall_over(alloc, world)?;
    match run_workers(rt, alloc, jobs, workers, hall, &NoGate) {
        Ok(gathered) => Ok(gathered),
        Err(broken) => Err(fault_of(broken)),
    }
}

/// Runs jobs over the store that a world has after these calls. The world stays as it is.
fn run_over<R: Threads + Wait + Sync>(
    rt: &R,
    alloc: Global,
    world: &World,
    calls: &[WorldEvent],
    jobs: &[Job],
    workers: usize,
) -> Result<Ran, StoreFault>
    requires workers { (1 ≤ workers) × (workers ≤ MOST_WORKERS) }
    ensures ran { IfOk result (λ r. RanTo (made_over (kept r.begun.standing)) jobs.now r.gathered.ends.items r.gathered.lost.items r.gathered.committed
        r.gathered.hall) }
    ensures begun { IfOk result (λ r. r.begun ≡ world_after calls.now world.now) }
{
    let begun = copy_after(world, calls)?;
    match gathered_over(rt, alloc, &begun, jobs, workers) {
        Ok(gathered) => Ok(Ran { gathered, begun }),
        Err(fault) => {
            drop(begun);
            Err(fault)
        }
    }
}

/// Whether two worlds have the same live leases.
fn have_same_leases(left: &World, right: &World) -> bool
    ensures { result ≡ true → left.now.standing.live ≡ right.now.standing.live }
{
    if !left.opens_alike(right) {
        return false;
    }
    leave_same_leases(left.history(), right.history())
}

/// Whether a world has a store that is like the one that a run of jobs has left.
fn is_left_by(ran: &Ran, left: &World) -> bool
    ensures alike { result ≡ true → AreAlikeSince (now (kept ran.now.begun.standing).history) ran.now.gathered.hall.standing (kept left.now.standing) }
    ensures leases { result ≡ true → ran.now.begun.standing.live ≡ left.now.standing.live }
{
    if !have_same_leases(&ran.begun, left) {
        return false;
    }
    let since = ran.begun.store().keys().revision();
    are_alike_since(ran.gathered.hall.store(), left.store(), since)
}

/// Whether a scenario leads a world to a store that is like the one that a run of jobs has left. The world stays as it is.
fn leads_to(world: &World, scenario: &Scenario, ran: &Ran) -> Result<bool, AllocError>
    ensures alike { IfOk result (λ is. is ≡ true → AreAlikeSince (now (kept ran.now.begun.standing).history) ran.now.gathered.hall.standing
        (kept (world_after scenario.now.events world.now).standing)) }
    ensures leases { IfOk result (λ is. is ≡ true → ran.now.begun.standing.live ≡ (world_after scenario.now.events world.now).standing.live) }
{
    let left = copy_after(world, scenario.events.as_slice())?;
    let is_left = is_left_by(ran, &left);
    drop(left);
    Ok(is_left)
}

/// Whether two scenarios open a store alike.
fn open_alike(left: Option<Opening>, right: Option<Opening>) -> bool
    ensures { result ≡ true → setup_of left ≡ setup_of right }
{
    let left = opens_with(left);
    let right = opens_with(right);
    left.revision() == right.revision() && left.operations() == right.operations()
}

/// Whether a scenario opens a store as the jobs' does, and leads a world to a store that is like the one that they have left.
fn is_like(
    world: &World,
    asked: &JobsAsked,
    scenario: &Scenario,
    ran: &Ran,
) -> Result<bool, AllocError>
    ensures opens { IfOk result (λ is. is ≡ true → setup_of scenario.now.opening ≡ setup_of asked.now.opening) }
    ensures alike { IfOk result (λ is. is ≡ true → AreAlikeSince (now (kept ran.now.begun.standing).history) ran.now.gathered.hall.standing
        (kept (world_after scenario.now.events world.now).standing)) }
    ensures leases { IfOk result (λ is. is ≡ true → ran.now.begun.standing.live ≡ (world_after scenario.now.events world.now).standing.live) }
{
    if open_alike(scenario.opening, asked.opening) {
        return leads_to(world, scenario, ran);
    }
    Ok(false)
}

/// The text of a scenario that makes the changes of a run of jobs, and the scenario. `Disagrees`: it does not make them.
fn changes_of(
    alloc: Global,
    world: &World,
    asked: &JobsAsked,
    calls: &[WorldEvent],
    ran: &Ran,
) -> Result<(String, Scenario), StoreFault>
    ensures spelled { IfOk result (λ made. scenario_in (string_bytes made.0) ≡ OkOf made.1) }
    ensures starts { IfOk result (λ made. IsOpening made.1.opening) }
    ensures opens { IfOk result (λ made. setup_of made.1.opening ≡ setup_of asked.now.opening) }
    ensures alike { IfOk result (λ made. AreAlikeSince (now (kept ran.now.begun.standing).history) ran.now.gathered.hall.standing
        (kept (world_after made.1.events world.now).standing)) }
    ensures leases { IfOk result (λ made. ran.now.begun.standing.live ≡ (world_after made.1.events world.now).standing.live) }
{
    let since = ran.begun.store().keys().revision();
    let keys = ran.gathered.hall.store().keys();
    let text = changes_text(alloc, asked.opening, calls, keys, since)?;
    let scenario = read(alloc, text.as_bytes())?;
    let is_same = is_like(world, asked, &scenario, ran)?;
    if is_same {
        return Ok((text, scenario));
    }
    Err(StoreFault::Disagrees)
}

/// What is printed and kept of a run of jobs over the store that a world has after these calls.
fn written_of(
    alloc: Global,
    world: &World,
    asked: &JobsAsked,
    calls: &[WorldEvent],
    ran: &Ran,
    with_ends: bool,
) -> Result<Written, StoreFault>
    requires { length ran.now.gathered.lost.items ≡ length ran.now.gathered.ends.items }
    ensures spelled { IfOk result (λ w. scenario_in (string_bytes w.text) ≡ OkOf w.scenario) }
    ensures starts { IfOk result (λ w. IsOpening w.scenario.opening) }
    ensures opens { IfOk result (λ w. setup_of w.scenario.opening ≡ setup_of asked.now.opening) }
    ensures alike { IfOk result (λ w. AreAlikeSince (now (kept ran.now.begun.standing).history) ran.now.gathered.hall.standing
        (kept (world_after w.scenario.events world.now).standing)) }
    ensures leases { IfOk result (λ w. ran.now.begun.standing.live ≡ (world_after w.scenario.events world.now).standing.live) }
    ensures shows { IfOk result (λ w. AreLinesOf with_ends ran.now.gathered.ends.items ran.now.gathered.lost.items (length asked.now.sorted.jobs)
        ran.now.gathered.committed ran.now.gathered.hall.standing.history (string_bytes w.lines)) }
{
    let lines = lines(alloc, asked.sorted.jobs.len(), &ran.gathered, with_ends)?;
    let (text, scenario) = changes_of(alloc, world, asked, calls, ran)?;
    Ok(Written {
        lines,
        text,
        scenario,
    })
}

/// The ends of the jobs of a run. What else it came to is dropped.
fn ends_of(alloc: Global, ran: Ran) -> Sequence<JobEnd>
    ensures { result ≡ ran.gathered.ends.items }
{
    let mut ran = ran;
    let ends = replace(&mut ran.gathered.ends, Vec::new(alloc));
    drop(ran);
    Sequence::of(ends)
}

/// What is printed and kept of a run of jobs over the store that a world has after these calls, and the ends of the jobs. What else it came to is dropped.
fn done_of(
    alloc: Global,
    world: &World,
    asked: &JobsAsked,
    calls: &[WorldEvent],
    ran: Ran,
    with_ends: bool,
) -> Result<Done, StoreFault>
    requires ran { RanTo (made_over (kept ran.begun.standing)) asked.now.sorted.jobs ran.gathered.ends.items ran.gathered.lost.items ran.gathered.committed
        ran.gathered.hall }
    requires begun { ran.begun ≡ world_after calls.now world.now }
    ensures spelled { IfOk result (λ done. scenario_in (string_bytes done.written.text) ≡ OkOf done.written.scenario) }
    ensures starts { IfOk result (λ done. IsOpening done.written.scenario.opening) }
    ensures opens { IfOk result (λ done. setup_of done.written.scenario.opening ≡ setup_of asked.now.opening) }
    ensures ran { IfOk result (λ done. HasRunOver with_ends calls.now asked.now.sorted.jobs world.now done.ends (string_bytes done.written.lines)
        (kept (world_after done.written.scenario.events world.now).standing)) }
{
    let written = written_of(alloc, world, asked, calls, &ran, with_ends);
    let ends = ends_of(alloc, ran);
    match written {
        Ok(written) => Ok(Done { written, ends }),
        Err(fault) => Err(fault),
    }
}

/// Runs jobs over the store of a world, once its calls were made. The world stays as it is.
fn run_jobs<R: Threads + Wait + Sync>(
    rt: &R,
    alloc: Global,
    world: &World,
    asked: &JobsAsked,
    workers: usize,
    with_ends: bool,
) -> Result<Done, StoreFault>
    requires workers { (1 ≤ workers) × (workers ≤ MOST_WORKERS) }
    ensures spelled { IfOk result (λ done. scenario_in (string_bytes done.written.text) ≡ OkOf done.written.scenario) }
    ensures starts { IfOk result (λ done. IsOpening done.written.scenario.opening) }
    ensures opens { IfOk result (λ done. setup_of done.written.scenario.opening ≡ setup_of asked.now.opening) }
    ensures ran { IfOk result (λ done. HasRunOver with_ends (map event_of asked.now.sorted.calls) asked.now.sorted.jobs world.now done.ends
        (string_bytes done.written.lines) (kept (world_after done.written.scenario.events world.now).standing)) }
{
    let calls = events_of(alloc, asked.sorted.calls.as_slice())?;
    let jobs = asked.sorted.jobs.as_slice();
    let ran = run_over(rt, alloc, world, &calls, jobs, workers)?;
    done_of(alloc, world, asked, &calls, ran, with_ends)
}

/// Keeps what a run of jobs has changed, over the world that they were run over. At `Ok` it lasts.
fn keep_done<D: Disk>(
    records: &mut RecordFile<D>,
    world: World,
    done: &Done,
) -> Result<(), StoreFault>
    requires spelled { scenario_in (string_bytes done.now.written.text) ≡ OkOf done.now.written.scenario }
    requires settled { IsSettled D.is_usable D.seen D.may_leave records.old }
    requires ready { IsReady (D.seen records.old.disk) world done.now.written.scenario }
    ensures settled { OnOk result (IsSettled D.is_usable D.seen D.may_leave records.new) }
    ensures kept { OnOk result (IsKept (D.seen records.new.disk) (world_after done.now.written.scenario.events world)) }
    ensures any_moment { LeavesOnly D.moment D.left_since records.old.disk records.new.disk (LeavesAroundRun (D.seen records.old.disk)) }
{
    match go_on_over(
        records,
        world,
        done.written.text.as_bytes(),
        &done.written.scenario,
    ) {
        Ok(_) => Ok(()),
        Err(fault) => Err(fault),
    }
}

/// The world that jobs are to be run over: that of the file, or an empty one where the file has no records. `OpenAlready`: the scenario says what its store
/// opens with, and the file has a store.
fn world_for(alloc: Global, kept: Kept, asked: &JobsAsked) -> Result<World, StoreFault>
    requires { IsOpening asked.now.opening }
    ensures new { kept.end ≡ 0 → IfOk result (λ w. w ≡ opened_world (setup_of asked.now.opening)) }
    ensures old { (kept.end ≡ 0 → ⊥) → IfOk result (λ w. w ≡ kept.world) }
{
    let front = Scenario {
        opening: asked.opening,
        events: Sequence::new(alloc),
    };
    ready_world(alloc, kept, &front)
}

/// Runs jobs over the world of a file that was opened, and keeps what they have changed. At `Ok` it lasts.
fn run_and_keep<R: Threads + Wait + Sync, D: Disk>(
    rt: &R,
    records: &mut RecordFile<D>,
    kept: Kept,
    asked: &JobsAsked,
    workers: usize,
    with_ends: bool,
) -> Result<Done, StoreFault>
    requires workers { (1 ≤ workers) × (workers ≤ MOST_WORKERS) }
    requires opening { IsOpening asked.now.opening }
    requires settled { IsSettled D.is_usable D.seen D.may_leave records.old }
    requires end { kept.end ≡ length (D.seen records.old.disk) }
    requires kept { IsKept (D.seen records.old.disk) kept.world }
    ensures settled { OnOk result (IsSettled D.is_usable D.seen D.may_leave records.new) }
    ensures run { IfOk result (λ done. HasRunAndKept with_ends (D.seen records.old.disk) (D.seen records.new.disk) asked.now done.ends
        (string_bytes done.written.lines)) }
    ensures any_moment { LeavesOnly D.moment D.left_since records.old.disk records.new.disk (LeavesAroundRun (D.seen records.old.disk)) }
{
    let world = world_for(records.alloc, kept, asked)?;
    let done = run_jobs(rt, records.alloc, &world, asked, workers, with_ends)?;
    keep_done(records, world, &done)?;
    Ok(done)
}

/// Runs a scenario of jobs by `workers` threads over the world of a file, which was opened with these bytes, and writes what is printed of the run to a sink
/// once what the jobs have changed lasts: all of it in one record, which is synced once. Returns the ends of the jobs.
///
/// At `Ok` it lasts: from then on each crash leaves a file that opens to a world whose store has what the jobs have changed, as transactions. At a refusal
/// other than `Output` nothing was written. The file has to be opened again after each.
pub fn threads_kept<R: Threads + Wait + Sync, D: Disk, W: Sink>(
    rt: &R,
    records: &mut RecordFile<D>,
    bytes: Vec<u8>,
    asked: &JobsAsked,
    workers: usize,
    with_ends: bool,
    out: &mut W,
) -> Result<Sequence<JobEnd>, StoreFault>
    requires workers { (1 ≤ workers) × (workers ≤ MOST_WORKERS) }
    requires bytes { bytes.items ≡ D.seen records.old.disk }
    requires durable { Only (D.seen records.old.disk) (D.may_leave records.old.disk) }
    requires usable { IsTrue (D.is_usable records.old.disk) }
    requires opening { IsOpening asked.now.opening }
    requires out_works { W.failed out.old ≡ false }
    ensures settled { OnOk result (IsSettled D.is_usable D.seen D.may_leave records.new) }
    ensures lasts { IfOk result (λ ends. HasRunJobs with_ends (D.seen records.old.disk) (D.seen records.new.disk) asked.now ends (W.held out.old) (W.held out.new)) }
    ensures silent { IfErr result (λ e. (e ≡ StoreFault.Output → ⊥) → W.held out.new ≡ W.held out.old) }

    // A crash at any moment leaves a file that opens to what it was found to open to, or to the world after what the jobs have changed.
    ensures any_moment { LeavesOnly D.moment D.left_since records.old.disk records.new.disk (LeavesFoundOrRun (D.seen records.old.disk)) }
{
    let kept = opened(records, bytes)?;
    let done = run_and_keep(rt, records, kept, asked, workers, with_ends)?;
    print_text(done.written.lines.as_str(), out)?;
    Ok(done.ends)
}
