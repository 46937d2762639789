//! Programs to begin with, over the library: each module is one, with a `run` of its own. Worked examples of single calls come after them.
#![tactic(auto)]

mod audit;
mod queue;
mod registry;
mod search;
mod threads;
mod transfers;
mod worked;

use anyhow::Result;
use std::alloc::Global;
use std::sync::Wait;
use std::thread::Threads;

/// Runs each of them.
fn run<T: Threads + Wait + Sync>(rt: &impl Print, threads: &T, alloc: Global) -> Result<()> {
    transfers::run(rt, alloc)?;
    registry::run(rt, alloc)?;
    queue::run(rt, alloc)?;
    search::run(rt, alloc)?;
    threads::run(rt, threads, alloc)?;
    worked::run(rt, alloc)
}

fn main(rt: HostRuntime) -> Result<()> {
    run(&rt, &rt, rt.alloc())?;
    let status = audit::run(&rt);
    println!(rt; "audit: status {status}")?;
    Ok(())
}
