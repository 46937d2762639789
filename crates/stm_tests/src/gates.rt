//! Two workers are at work at once, and the lock is not held where a fetch or a commit is about to be made: job 0 is held there until
//! job 1's commit was answered, which can't be on one thread. A job whose commit failed is attempted again, each end stands at the place of
//! its job, and what a job at a serializable level reads is of one revision.
ghost use Rattle.std.specs.Prelude.{◌≤◌};
ghost use Rattle.stm_workers.specs.declared.run.TheConstants.{MOST_WORKERS};

use crate::ends::report_end;
use crate::jobs::add_job;
use std::alloc::{AllocError, Global};
use std::process::Abort;
use std::sync::Wait;
use std::sync::atomic::{AtomicBool, AtomicU64, Ordering};
use std::test::Fail;
use std::thread;
use std::thread::Threads;
use stm_history::{Sequence, Text};
use stm_program::Level;
use stm_txn::Store;
use stm_workers::{Gate, Gathered, Hall, Job, JobEnd, run_workers};

/// How often a job that is held looks whether it may go on, where the sign is to come.
const MANY_TURNS: u32 = 1000000;

/// The same, where it can't come.
const FEW_TURNS: u32 = 1000;

/// Where job 0 is held until job 1's commit was answered.
#[derive(Clone, Copy)]
enum Place {
    /// Before its fetch.
    Fetch,
    /// Before its commit.
    Commit,
    /// Before its commit; and job 1 before its own until job 0 stands there: so whatever job 0 reads, it reads before job 1's commit,
    /// and sends its own after it.
    CommitOnceBothStand,
    /// Before its second fetch; and job 1 before its commit until job 0 stands there.
    SecondFetch,
}

/// Holds the jobs, by the signs that they give each other.
#[derive(Drop)]
struct Holding {
    place: Place,
    /// How often a job that is held looks for a sign.
    turns: u32,
    /// Job 0 stands where it is held.
    standing: AtomicBool,
    /// Job 1's commit was answered.
    answered: AtomicBool,
    /// A sign that was waited for never came.
    serial: AtomicBool,
    /// How often job 0 has fetched a key or a list.
    fetches: AtomicU64,
}

impl Holding {
    fn new(place: Place, turns: u32) -> Holding {
        Holding {
            place,
            turns,
            standing: AtomicBool::new(false),
            answered: AtomicBool::new(false),
            serial: AtomicBool::new(false),
            fetches: AtomicU64::new(0),
        }
    }

    /// Waits for a sign, and remembers if it never came.
    fn wait_for(&self, sign: &AtomicBool) {
        for _ in 0..self.turns {
            if sign.load(Ordering::SeqCst) {
                return;
            }
            thread::yield_now();
        }
        self.serial.store(true, Ordering::SeqCst);
    }

    /// Holds job 0 where it is, until job 1's commit was answered.
    fn hold(&self) {
        self.standing.store(true, Ordering::SeqCst);
        self.wait_for(&self.answered);
    }

    /// Holds job 0 before its commit.
    fn hold_commit(&self) {
        if matches!(self.place, Place::Commit | Place::CommitOnceBothStand) {
            self.hold();
        }
    }

    /// Holds job 0 before a fetch, after this many fetches.
    fn hold_fetch(&self, made: u64) {
        if matches!(self.place, Place::Fetch)
            || (made == 1 && matches!(self.place, Place::SecondFetch))
        {
            self.hold();
        }
    }

    /// Whether the jobs were at work at once.
    fn manner(&self) -> &'static str {
        if self.serial.load(Ordering::SeqCst) {
            "serial"
        } else {
            "at once"
        }
    }
}

impl Gate for Holding {
    fn before_fetch(&self, job: usize) {
        if job != 0 {
            return;
        }
        let made = self.fetches.fetch_add(1, Ordering::SeqCst);
        self.hold_fetch(made);
    }

    fn before_commit(&self, job: usize) {
        if job == 0 {
            self.hold_commit();
        } else if matches!(self.place, Place::CommitOnceBothStand | Place::SecondFetch) {
            self.wait_for(&self.standing);
        }
    }

    fn after_commit(&self, job: usize) {
        if job == 1 {
            self.answered.store(true, Ordering::SeqCst);
        }
    }
}

/// Adds two jobs, each of which may send at most `limit` commits.
fn add_two(alloc: Global, jobs: &mut Vec<Job>, texts: (&str, &str), limit: u32) -> Result<(), Fail>
    requires { 1 ≤ limit }
{
    add_job(alloc, jobs, Level::SerializableSnapshot, texts.0, limit)?;
    add_job(alloc, jobs, Level::SerializableSnapshot, texts.1, limit)
}

/// How job 0 ended.
fn report_first(reported: &mut String, ends: &[JobEnd]) -> Result<(), AllocError> {
    match ends.first() {
        Some(end) => report_end(reported, end),
        None => Ok(()),
    }
}

/// Adds the keys over which commits of job 0 failed before its last attempt.
fn report_lost(reported: &mut String, lost: &[Sequence<Text>]) -> Result<(), AllocError> {
    if let Some(keys) = lost.first() {
        for key in keys.as_slice() {
            write!(reported, "lost over {}, ", key.as_str())?;
        }
    }
    Ok(())
}

/// Whether `p` is "1" now.
fn has_put_p(hall: &Hall) -> Result<bool, AllocError> {
    let state = hall.state()?;
    match state.get("p") {
        None => Ok(false),
        Some(entry) => Ok(entry.value.as_str() == "1"),
    }
}

/// The same, in words.
fn p_now(hall: &Hall) -> Result<&'static str, AllocError> {
    if has_put_p(hall)? {
        Ok("is 1")
    } else {
        Ok("is not 1")
    }
}

/// What is shown of a run, in a line: whether the jobs were at work at once, how many committed, the store's revision, whether `p` is
/// "1", and of job 0 how many keys it fetched, over which keys its commits failed before its last attempt, and how it ended.
fn report_run(
    reported: &mut String,
    holding: &Holding,
    gathered: &Gathered,
) -> Result<(), AllocError> {
    let put = p_now(&gathered.hall)?;
    write!(
        reported,
        "{}: {} committed, revision {}, p {put}, {} fetched, ",
        holding.manner(),
        gathered.committed,
        gathered.hall.revision(),
        holding.fetches.load(Ordering::SeqCst)
    )?;
    report_lost(reported, gathered.lost.as_slice())?;
    report_first(reported, gathered.ends.as_slice())
}

/// What jobs come to on an empty hall.
fn report_jobs<W: Threads + Wait + Sync>(
    rt: &W,
    alloc: Global,
    reported: &mut String,
    jobs: &[Job],
    workers: usize,
    holding: &Holding,
) -> Result<(), Fail>
    requires { (1 ≤ workers) × (workers ≤ MOST_WORKERS) }
{
    let store = Store::new(alloc)?;
    match run_workers(rt, alloc, jobs, workers, Hall::new(alloc, store), holding) {
        Ok(gathered) => {
            let done = report_run(reported, holding, &gathered);
            drop(gathered);
            Ok(done?)
        }
        Err(fault) => {
            drop(fault);
            Err(Fail::from("the run was broken off"))
        }
    }
}

/// Adds two jobs, each of which may send at most `limit` commits, and shows what they come to.
fn report_two<W: Threads + Wait + Sync>(
    rt: &W,
    alloc: Global,
    reported: &mut String,
    jobs: &mut Vec<Job>,
    texts: (&str, &str),
    limit: u32,
    workers: usize,
    holding: &Holding,
) -> Result<(), Fail>
    requires { (1 ≤ limit) × (1 ≤ workers) × (workers ≤ MOST_WORKERS) }
{
    add_two(alloc, jobs, texts, limit)?;
    report_jobs(rt, alloc, reported, jobs.as_slice(), workers, holding)
}

fn reported_of_two<W: Threads + Wait + Sync>(
    rt: &W,
    alloc: Global,
    texts: (&str, &str),
    limit: u32,
    workers: usize,
    holding: &Holding,
) -> Result<String, Fail>
    requires { (1 ≤ limit) × (1 ≤ workers) × (workers ≤ MOST_WORKERS) }
{
    let mut reported = String::new(alloc);
    let mut jobs = Vec::new(alloc);
    let done = report_two(
        rt,
        alloc,
        &mut reported,
        &mut jobs,
        texts,
        limit,
        workers,
        holding,
    );
    drop(jobs);
    done?;
    Ok(reported)
}

/// Two jobs on an empty hall, and what they come to.
struct Row {
    /// Where job 0 is held.
    place: Place,
    /// Whether there is one worker alone; else there are two.
    is_alone: bool,
    /// The programs of the jobs.
    texts: (&'static str, &'static str),
    /// Whether each may send a second commit.
    is_sent_again: bool,
    expected: &'static str,
}

const PUT_P: &str = r#"[["put","p","1",0]]"#;

const PUT_Q: &str = r#"[["put","q","1",0]]"#;

const READ_Q: &str = r#"[["put","p",["get","q"],0]]"#;

const EXTEND_P: &str = r#"[["put","p",["cat",["get","p"],"x"],0]]"#;

const LISTED_P: &str = r#"[["prefetch",["p"]],["put","p","1",0]]"#;

const LISTED_Q: &str = r#"[["prefetch",["q"]],["put","q","1",0]]"#;

const LISTED_READS: &str = r#"[["prefetch",["q","r"]],["put","p",["get","q"],0]]"#;

const PUT_BOTH: &str = r#"[["put","a","1",0],["put","b","1",0]]"#;

const READ_BOTH: &str = r#"[["abort",["cat",["get","a"],["get","b"]]]]"#;

const ROWS: [Row; 12] = [
    // Two workers are at work at once.
    Row {
        place: Place::Commit,
        is_alone: false,
        texts: (PUT_P, PUT_Q),
        is_sent_again: false,
        expected: "at once: 2 committed, revision 3, p is 1, 0 fetched, commit 1 at 3; ",
    },
    // One worker runs one job after another.
    Row {
        place: Place::Commit,
        is_alone: true,
        texts: (PUT_P, PUT_Q),
        is_sent_again: false,
        expected: "serial: 2 committed, revision 3, p is 1, 0 fetched, commit 0 at 2; ",
    },
    // Each job has a list of one key, which is fetched before its commit.
    Row {
        place: Place::Commit,
        is_alone: false,
        texts: (LISTED_P, LISTED_Q),
        is_sent_again: false,
        expected: "at once: 2 committed, revision 3, p is 1, 1 fetched, commit 1 at 3; ",
    },
    Row {
        place: Place::Commit,
        is_alone: true,
        texts: (LISTED_P, LISTED_Q),
        is_sent_again: false,
        expected: "serial: 2 committed, revision 3, p is 1, 1 fetched, commit 0 at 2; ",
    },
    // No lock is held before the fetch of a list, which is one fetch for all its keys. Job 0 reads what job 1 put.
    Row {
        place: Place::Fetch,
        is_alone: false,
        texts: (LISTED_READS, PUT_Q),
        is_sent_again: false,
        expected: "at once: 2 committed, revision 3, p is 1, 1 fetched, commit 1 at 3; ",
    },
    // Job 1 puts a key of the list of job 0 before that sends its commit. The next attempt has the list from the answers that came with the
    // failed commit, so it is fetched once.
    Row {
        place: Place::CommitOnceBothStand,
        is_alone: false,
        texts: (LISTED_READS, PUT_Q),
        is_sent_again: true,
        expected: "at once: 2 committed, revision 3, p is 1, 1 fetched, lost over q, commit 1 at 3; ",
    },
    // Job 0 is about to fetch while job 1 commits, so no lock is held there. It reads what job 1 put.
    Row {
        place: Place::Fetch,
        is_alone: false,
        texts: (READ_Q, PUT_Q),
        is_sent_again: false,
        expected: "at once: 2 committed, revision 3, p is 1, 1 fetched, commit 1 at 3; ",
    },
    // With one worker nobody commits while job 0 stands before its fetch: so it is held there, in vain, and reads an absent key.
    Row {
        place: Place::Fetch,
        is_alone: true,
        texts: (READ_Q, PUT_Q),
        is_sent_again: false,
        expected: "serial: 2 committed, revision 3, p is not 1, 1 fetched, commit 0 at 2; ",
    },
    // Job 0 reads a key that job 1 puts before job 0's commit is sent. It may send no more.
    Row {
        place: Place::CommitOnceBothStand,
        is_alone: false,
        texts: (READ_Q, PUT_Q),
        is_sent_again: false,
        expected: "at once: 1 committed, revision 2, p is not 1, 1 fetched, gave up over q; ",
    },
    // The same, but it may send one more: that one is evaluated on the answer that came with the failed commit, so the key is fetched once.
    Row {
        place: Place::CommitOnceBothStand,
        is_alone: false,
        texts: (READ_Q, PUT_Q),
        is_sent_again: true,
        expected: "at once: 2 committed, revision 3, p is 1, 1 fetched, lost over q, commit 1 at 3; ",
    },
    // Both jobs have one program: job 1 commits first, and job 0 gives up. So their ends could be exchanged, and would still stand.
    Row {
        place: Place::CommitOnceBothStand,
        is_alone: false,
        texts: (EXTEND_P, EXTEND_P),
        is_sent_again: false,
        expected: "at once: 1 committed, revision 2, p is not 1, 1 fetched, gave up over p; ",
    },
    // Job 1 puts both keys between the two fetches of job 0. That reads them as they were together, and aborts with what it has read: nothing.
    Row {
        place: Place::SecondFetch,
        is_alone: false,
        texts: (READ_BOTH, PUT_BOTH),
        is_sent_again: false,
        expected: "at once: 1 committed, revision 2, p is not 1, 2 fetched, abort  on a of 1 on b of 1; ",
    },
];

/// Asserts what the jobs of a row come to.
fn is_reported<W: Threads + Wait + Sync + Abort>(
    rt: &W,
    alloc: Global,
    row: &Row,
) -> Result<(), Fail> {
    let (workers, turns) = if row.is_alone {
        (1, FEW_TURNS)
    } else {
        (2, MANY_TURNS)
    };
    let limit = if row.is_sent_again { 2 } else { 1 };
    let holding = Holding::new(row.place, turns);
    let reported = reported_of_two(rt, alloc, row.texts, limit, workers, &holding)?;
    assert_eq!(rt; reported.as_str(), row.expected);
    Ok(())
}

#[test]
fn jobs_come_to_what_their_row_says(rt: HostRuntime) -> Result<(), Fail> {
    for row in &ROWS {
        is_reported(&rt, rt.alloc(), row)?;
    }
    Ok(())
}
