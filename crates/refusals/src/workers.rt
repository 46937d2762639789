//! Transfers between accounts by two workers. Whatever breaks their run off, the accounts have what they had together, and the jobs
//! can be run once more on what is left.
use crate::scenarios::{TRANSFERS, scenario_of};
use anyhow::{Result, bail};
use std::alloc::{AllocError, Global};
use std::sync::Wait;
use std::thread::Threads;
use stm_job_texts::{JobScenario, StoreCall, accept, open_store};
use stm_meaning::State;
use stm_texts::opens_with;
use stm_txn::Store;
use stm_workers::{FaultCause, Gathered, Hall, Job, NoGate, RunFault, run_workers};

/// How many workers there are.
const WORKERS: usize = 2;

/// What the accounts have together.
const TOTAL: u64 = 800;

/// The opening transaction and the jobs.
fn transfers_of(alloc: Global) -> Result<JobScenario> {
    let scenario = scenario_of(alloc, TRANSFERS)?;
    let transfers = accept(alloc, scenario)?;
    Ok(transfers)
}

/// The same, by a second call where the first was refused.
fn transfers_again(alloc: Global) -> Result<JobScenario> {
    match transfers_of(alloc) {
        Ok(transfers) => Ok(transfers),
        Err(_) => transfers_of(alloc),
    }
}

/// The store with the accounts, by a second call where the first was refused.
fn store_again(alloc: Global, calls: &[StoreCall]) -> Result<Store, AllocError> {
    match open_store(alloc, opens_with(None), calls) {
        Ok(store) => Ok(store),
        Err(_) => open_store(alloc, opens_with(None), calls),
    }
}

/// The sum of the numbers that the keys hold. `None` where one holds none.
fn sum_of(state: &State) -> Option<u64> {
    let mut sum = 0u64;
    for i in 0..state.len() {
        let number = state.at(i).value.as_str().parse::<u64>().ok()?;
        sum = sum.checked_add(number)?;
    }
    Some(sum)
}

/// The state of a hall, by a second call where the first was refused.
fn state_again(hall: &Hall) -> Result<State, AllocError> {
    match hall.state() {
        Ok(state) => Ok(state),
        Err(_) => hall.state(),
    }
}

/// What the accounts have together. Fails unless it is what they had.
fn add_up(hall: &Hall) -> Result<u64> {
    let state = state_again(hall)?;
    let sum = sum_of(&state);
    drop(state);
    match sum {
        Some(TOTAL) => Ok(TOTAL),
        Some(other) => bail!("the accounts have {other} together"),
        None => bail!("an account has no number"),
    }
}

/// What the accounts have together. Fails unless all jobs are committed.
fn look_at(jobs: &[Job], gathered: &Gathered) -> Result<u64> {
    if gathered.committed != jobs.len() {
        bail!("{} jobs committed", gathered.committed);
    }
    add_up(&gathered.hall)
}

/// Looks at a run that came to its end.
fn end(jobs: &[Job], gathered: Gathered) -> Result<u64> {
    let looked = look_at(jobs, &gathered);
    drop(gathered);
    looked
}

/// Fails: nothing more may be refused.
fn fail(fault: RunFault) -> Result<u64> {
    drop(fault);
    bail!("the jobs were broken off twice")
}

/// Runs the jobs once more, on what a run left that was broken off.
fn run_rest<T: Threads + Wait + Sync>(
    threads: &T,
    alloc: Global,
    jobs: &[Job],
    hall: Hall,
) -> Result<u64> {
    match run_workers(threads, alloc, jobs, WORKERS, hall, &NoGate) {
        Ok(gathered) => end(jobs, gathered),
        Err(fault) => fail(fault),
    }
}

/// Prints why a run was broken off. Fails where it should not have been.
fn report_cause(rt: &impl Eprint, cause: FaultCause) -> Result<()> {
    match cause {
        FaultCause::OutOfMemory => eprintln!(rt; "broken off: out of memory")?,
        FaultCause::Spawn => eprintln!(rt; "broken off: no thread")?,
        FaultCause::Audit { job } => bail!("the end of job {job} does not stand"),
    }
    Ok(())
}

/// Prints why a run was broken off, and returns what the accounts have together.
fn look_between(rt: &impl Eprint, fault: &RunFault) -> Result<u64> {
    report_cause(rt, fault.cause)?;
    add_up(&fault.hall)
}

/// Goes on after a run that was broken off.
fn go_on<T: Threads + Wait + Sync>(
    rt: &impl Eprint,
    threads: &T,
    alloc: Global,
    jobs: &[Job],
    fault: RunFault,
) -> Result<u64> {
    match look_between(rt, &fault) {
        Ok(_) => run_rest(threads, alloc, jobs, fault.hall),
        Err(error) => {
            drop(fault);
            Err(error)
        }
    }
}

/// Runs the jobs on a store.
fn run_jobs<T: Threads + Wait + Sync>(
    rt: &impl Eprint,
    threads: &T,
    alloc: Global,
    jobs: &[Job],
    store: Store,
) -> Result<u64> {
    let hall = Hall::new(alloc, store);
    match run_workers(threads, alloc, jobs, WORKERS, hall, &NoGate) {
        Ok(gathered) => end(jobs, gathered),
        Err(fault) => go_on(rt, threads, alloc, jobs, fault),
    }
}

/// The line with the sum, by a second call where the first was refused.
fn line_again(alloc: Global, sum: u64) -> Result<String, AllocError> {
    match format!(in alloc; "{sum}\n") {
        Ok(line) => Ok(line),
        Err(_) => format!(in alloc; "{sum}\n"),
    }
}

/// Runs the transfers, and returns a line with what the accounts have together.
fn lines_of<T: Threads + Wait + Sync>(
    rt: &impl Eprint,
    threads: &T,
    alloc: Global,
    transfers: &JobScenario,
) -> Result<String> {
    let store = store_again(alloc, transfers.calls.as_slice())?;
    let sum = run_jobs(rt, threads, alloc, transfers.jobs.as_slice(), store)?;
    let line = line_again(alloc, sum)?;
    Ok(line)
}

/// The sum of the accounts.
pub(crate) fn lines<T: Threads + Wait + Sync>(
    rt: &impl Eprint,
    threads: &T,
    alloc: Global,
) -> Result<String> {
    let transfers = transfers_again(alloc)?;
    let line = lines_of(rt, threads, alloc, &transfers);
    drop(transfers);
    line
}
