//! A queue of jobs with leases, over a store. A worker takes the first job that nobody holds, and holds it on its lease; where the lease expires before the
//! job is done, another worker gets it.
use anyhow::Result;
use std::alloc::Global;
use stm_closures::{Level, NotCommitted, Store, TransactionError, atomically};

/// How many jobs there are.
const JOBS: u64 = 2;

pub(crate) fn run(rt: &impl Print, alloc: Global) -> Result<()> {
    let mut store = Store::new(alloc)?;
    let worked = work(rt, alloc, &mut store);
    drop(store);
    worked
}

/// Two workers take the two jobs; the first one is silent for too long, and the second one gets its job too.
fn work(rt: &impl Print, alloc: Global, store: &mut Store) -> Result<()> {
    store.grant(1, 10)?;
    store.grant(2, 60)?;
    fill(alloc, store)?;
    show(rt, "worker 1", take(alloc, store, 1)?)?;
    show(rt, "worker 2", take(alloc, store, 2)?)?;
    show(rt, "worker 2", take(alloc, store, 2)?)?;
    drop(store.advance(30)?);
    show(rt, "worker 2", take(alloc, store, 2)?)?;
    finish(alloc, store, 1)?;
    finish(alloc, store, 2)?;
    show(rt, "worker 2", take(alloc, store, 2)?)?;
    Ok(())
}

fn show(rt: &impl Print, who: &str, job: Option<u64>) -> Result<()> {
    match job {
        Some(job) => println!(rt; "{who} takes job {job}")?,
        None => println!(rt; "{who} finds no job")?,
    }
    Ok(())
}

/// Every job is to be done.
fn fill(alloc: Global, store: &mut Store) -> Result<(), NotCommitted<TransactionError>> {
    atomically(alloc, store, Level::Serializable, 1, |tx| {
        for job in 1..=JOBS {
            tx.put(format!(in alloc; "job/{job}")?.as_str(), "to do", 0)?;
        }
        Ok(())
    })
}

/// Takes the first job that is to be done and that nobody holds.
fn take(
    alloc: Global,
    store: &mut Store,
    lease: u64,
) -> Result<Option<u64>, NotCommitted<TransactionError>> {
    atomically(alloc, store, Level::Serializable, 1, |tx| {
        for job in 1..=JOBS {
            let holder = format!(in alloc; "holder/{job}")?;
            let is_there = tx.rev(format!(in alloc; "job/{job}")?.as_str())? != 0;
            if is_there && tx.rev(holder.as_str())? == 0 {
                tx.put(holder.as_str(), "held", lease)?;
                return Ok(Some(job));
            }
        }
        Ok(None)
    })
}

/// A job is done: it is gone, and nobody holds it.
fn finish(
    alloc: Global,
    store: &mut Store,
    job: u64,
) -> Result<(), NotCommitted<TransactionError>> {
    atomically(alloc, store, Level::Serializable, 1, |tx| {
        tx.del(format!(in alloc; "job/{job}")?.as_str())?;
        tx.del(format!(in alloc; "holder/{job}")?.as_str())
    })
}
