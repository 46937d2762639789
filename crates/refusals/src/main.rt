//! Runs in which an allocation may fail, or the start of a thread may be refused. The one word of the command line says which.
//!
//! A call that is refused because an allocation failed is made once more, so that a run prints the same lines on standard output whether an
//! allocation failed in it or not. A second refusal, or another one than is expected, ends it with status 1. Where the refused call
//! had done a part of its work, that is printed on standard error.
//!
//! `bench/refusals` makes the allocations fail from outside, each in a run of its own.
#![tactic(auto)]

mod scenarios;
mod workers;
mod worlds;

use anyhow::{Result, bail};
use std::env;
use std::rt::Env;
use std::sync::Wait;
use std::thread::Threads;
use stm_devices::{Std, write_all};

/// A run.
#[derive(Clone, Copy)]
enum Run {
    Workers,
    /// The events of this scenario in a world.
    World(&'static str),
}

/// The run of a name.
fn named(name: &str) -> Option<Run> {
    match name {
        "both_expire" => Some(Run::World(scenarios::BOTH_EXPIRE)),
        "expiring_leases" => Some(Run::World(scenarios::EXPIRING_LEASES)),
        "last_revision" => Some(Run::World(scenarios::LAST_REVISION)),
        "listed_reads" => Some(Run::World(scenarios::LISTED_READS)),
        "one_revision" => Some(Run::World(scenarios::ONE_REVISION)),
        "transactions" => Some(Run::World(scenarios::TRANSACTIONS)),
        "workers" => Some(Run::Workers),
        "write_skew" => Some(Run::World(scenarios::WRITE_SKEW)),
        "write_skew_stopped" => Some(Run::World(scenarios::WRITE_SKEW_STOPPED)),
        _ => None,
    }
}

/// The run that the command line names. Its words are let go before it begins.
fn asked<R: Env + AllocGlobal>(rt: &R) -> Result<Option<Run>> {
    let words = env::args(rt)?.collect::<Vec<String>>(rt.alloc())?;
    match words.as_slice() {
        [_, name] => Ok(named(name.as_str())),
        _ => Ok(None),
    }
}

/// The same, by a second look where the first was refused.
fn asked_again<R: Env + AllocGlobal>(rt: &R) -> Result<Option<Run>> {
    match asked(rt) {
        Ok(run) => Ok(run),
        Err(_) => asked(rt),
    }
}

/// What a run prints on standard output.
fn lines_of<T: Threads + Wait + Sync>(rt: &HostRuntime, threads: &T, run: Run) -> Result<String> {
    match run {
        Run::Workers => workers::lines(rt, threads, rt.alloc()),
        Run::World(scenario) => worlds::lines(rt, rt.alloc(), scenario),
    }
}

/// Makes a run, and prints its lines, which takes no memory.
fn make<T: Threads + Wait + Sync>(rt: &HostRuntime, threads: &T) -> Result<()> {
    let Some(run) = asked_again(rt)? else {
        bail!("name one of the runs, as bench/refusals does");
    };
    let lines = lines_of(rt, threads, run)?;
    let mut out = Std::new(rt.stdout());
    write_all(&mut out, lines.as_str().as_bytes())?;
    Ok(())
}

fn main(rt: HostRuntime) -> Result<()> {
    make(&rt, &rt)
}
