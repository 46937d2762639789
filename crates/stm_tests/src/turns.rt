//! No lock is held while a job is evaluated: between the fetch of one job and its commit another job commits. The two workers are left to themselves, so
//! the run is repeated until that is seen. A worker that evaluates under the lock never shows it.
use crate::jobs::add_job;
use std::alloc::{AllocError, Global};
use std::process::Abort;
use std::sync::Wait;
use std::sync::atomic::{AtomicBool, Ordering};
use std::test::Fail;
use std::thread;
use std::thread::Threads;
use stm_program::Level;
use stm_txn::Store;
use stm_workers::{Gate, Gathered, Hall, Job, run_workers};

/// How often the run is made, at most.
const TRIES: u32 = 50;

/// How often job 1 lets others go first, so that job 0 has made its fetch.
const TURNS: u32 = 200;

/// How often job 1 looks whether job 0 is about to fetch.
const MANY_TURNS: u32 = 1000000;

/// Sends job 1's commit once job 0 has begun its fetch, and sees which commit came first.
#[derive(Drop)]
struct Racing {
    /// Job 0 is about to fetch.
    fetching: AtomicBool,
    /// Job 1's commit was answered.
    answered: AtomicBool,
    /// Job 1's commit was answered before job 0's was sent.
    answered_first: AtomicBool,
}

impl Racing {
    fn new() -> Racing {
        Racing {
            fetching: AtomicBool::new(false),
            answered: AtomicBool::new(false),
            answered_first: AtomicBool::new(false),
        }
    }

    /// Waits until job 0 is about to fetch, and then for a while.
    fn wait(&self) {
        for _ in 0..MANY_TURNS {
            if self.fetching.load(Ordering::SeqCst) {
                break;
            }
            thread::yield_now();
        }
        for _ in 0..TURNS {
            thread::yield_now();
        }
    }
}

impl Gate for Racing {
    fn before_fetch(&self, job: usize) {
        if job == 0 {
            self.fetching.store(true, Ordering::SeqCst);
        }
    }

    fn before_commit(&self, job: usize) {
        if job == 1 {
            self.wait();
        } else if self.answered.load(Ordering::SeqCst) {
            self.answered_first.store(true, Ordering::SeqCst);
        }
    }

    fn after_commit(&self, job: usize) {
        if job == 1 {
            self.answered.store(true, Ordering::SeqCst);
        }
    }
}

/// The text of a program that reads `q`, counts for long, and puts under `p` what it has read.
fn long_program(alloc: Global) -> Result<String, AllocError> {
    let mut text = String::from_str(
        alloc,
        r#"[["set",0,["get","q"]],["for",1,9,9,[["for",2,1000,1000,[["set",3,0]"#,
    )?;
    for _ in 0..40usize {
        text.push_str(r#",["set",3,["add",["var",3],["var",2]]]"#)?;
    }
    text.push_str(r#"]]]],["put","p",["var",0],0]]"#)?;
    Ok(text)
}

/// Adds that program, and one that puts `q`.
fn add_both(alloc: Global, jobs: &mut Vec<Job>) -> Result<(), Fail> {
    let text = long_program(alloc)?;
    add_job(alloc, jobs, Level::ReadCommitted, text.as_str(), 1)?;
    add_job(
        alloc,
        jobs,
        Level::ReadCommitted,
        r#"[["put","q","1",0]]"#,
        1,
    )
}

/// Whether job 0 has read `q` as it was before job 1 put it: then `p` has no text.
fn has_read_nothing(hall: &Hall) -> Result<bool, AllocError> {
    let state = hall.state()?;
    match state.get("p") {
        None => Ok(false),
        Some(entry) => Ok(entry.value.as_str() == ""),
    }
}

/// Whether job 1 was seen to commit between the fetch of job 0 and its commit.
fn is_seen(racing: &Racing, gathered: &Gathered) -> Result<bool, AllocError> {
    let first = racing.answered_first.load(Ordering::SeqCst);
    let nothing = has_read_nothing(&gathered.hall)?;
    Ok(first && nothing)
}

/// One run of the jobs by two workers.
fn run_once<W: Threads + Wait + Sync>(rt: &W, alloc: Global, jobs: &[Job]) -> Result<bool, Fail> {
    let racing = Racing::new();
    let store = Store::new(alloc)?;
    match run_workers(rt, alloc, jobs, 2, Hall::new(alloc, store), &racing) {
        Ok(gathered) => {
            let seen = is_seen(&racing, &gathered);
            drop(gathered);
            Ok(seen?)
        }
        Err(fault) => {
            drop(fault);
            Err(Fail::from("the run was broken off"))
        }
    }
}

/// Whether it is seen in one of the runs.
fn is_seen_once<W: Threads + Wait + Sync>(
    rt: &W,
    alloc: Global,
    jobs: &[Job],
) -> Result<bool, Fail> {
    for _ in 0..TRIES {
        if run_once(rt, alloc, jobs)? {
            return Ok(true);
        }
    }
    Ok(false)
}

/// Adds the jobs, and looks.
fn look<W: Threads + Wait + Sync>(
    rt: &W,
    alloc: Global,
    jobs: &mut Vec<Job>,
) -> Result<bool, Fail> {
    add_both(alloc, jobs)?;
    is_seen_once(rt, alloc, jobs.as_slice())
}

/// Asserts that it is seen.
fn is_found<W: Threads + Wait + Sync + Abort>(rt: &W, alloc: Global) -> Result<(), Fail> {
    let mut jobs = Vec::new(alloc);
    let seen = look(rt, alloc, &mut jobs);
    drop(jobs);
    let seen = seen?;
    assert!(rt; seen);
    Ok(())
}

#[test]
fn another_job_commits_while_one_is_evaluated(rt: HostRuntime) -> Result<(), Fail> {
    is_found(&rt, rt.alloc())
}
