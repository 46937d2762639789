//! Why a job goes no further.
ghost use Rattle.std.specs.Prelude.{◌≡◌, ◌≢◌, ◌↔◌, false, Some, IfOk, IfErr, OnOk, IsTrue};
ghost use Rattle.stm_steps.specs.declared.run.End.TheVariants.{Done};
ghost use Rattle.stm_outcome.specs.declared.refusal.Refusal.TheVariants.{OutOfMemory as OutOfMemoryRefusal};
ghost use Rattle.stm_journal.specs.declared.refusal.FetchRefusal.TheVariants.{Store as FetchRefused};
ghost use Rattle.stm_journal.specs.declared.refusal.CommitRefusal.TheVariants.{Store as CommitRefused};
ghost use Rattle.stm_job.specs.Ends.{is_committed};
ghost use Rattle.stm_workers.specs.Attempts.{end_reported, reads_reported, fetch_refusal_reported, commit_refusal_reported, job_end_reported};

use std::alloc::AllocError;
use stm_hall::{CommitRefusal, FetchRefusal};
use stm_history::{ReadAnswer, Sequence, Text};
use stm_job::{JobEnd, JobRefusal, LastingRefusal};
use stm_meaning::{End, Fault, Run};
use stm_txn::Refusal;

/// A job that goes no further without a commit.
#[derive(Drop)]
pub enum Stop {
    /// An allocation failed, which is no end.
    OutOfMemory,
    /// The program ended by `abort`, on these reads.
    Aborted {
        text: Text,
        reads: Sequence<ReadAnswer>,
    },
    /// The program ended by a fault, on these reads.
    Faulted {
        fault: Fault,
        reads: Sequence<ReadAnswer>,
    },
    Refused(JobRefusal),
}

impl From<AllocError> for Stop {
    ghost use Rattle.std.specs.Prelude.{◌≡◌};
    ghost use Rattle.stm_workers.specs.declared.stop.Stop.TheVariants.{OutOfMemory};

    ghost from_gives = { λ error stop. stop ≡ OutOfMemory };

    fn from(_error: AllocError) -> Stop {
        Stop::OutOfMemory
    }
}

/// Whether a call was refused because memory ran out.
fn is_out_of_memory(cause: Refusal) -> bool
    ensures { IsTrue result ↔ cause ≡ OutOfMemoryRefusal }
{
    cause == Refusal::OutOfMemory
}

impl Stop {
    ghost use Rattle.stm_workers.specs.declared.stop.Stop.TheVariants.{OutOfMemory};

    /// A call that the store refused: out of memory is itself, and so is each other cause.
    fn of_store(cause: Refusal) -> Stop
        ensures fetch { fetch_refusal_reported result ≡ Some (FetchRefused cause) }
        ensures commit { commit_refusal_reported result ≡ Some (CommitRefused cause) }
    {
        if is_out_of_memory(cause) {
            return Stop::OutOfMemory;
        }
        Stop::Refused(JobRefusal::Store(LastingRefusal::of(cause)))
    }

    /// A fetch that the hall refused.
    pub(crate) fn of_fetch(refusal: FetchRefusal) -> Stop
        ensures { fetch_refusal_reported result ≡ Some refusal }
    {
        match refusal {
            FetchRefusal::Behind { seen, now } => Stop::Refused(JobRefusal::Behind { seen, now }),
            FetchRefusal::Store(cause) => Stop::of_store(cause),
        }
    }

    /// A commit that the hall refused.
    pub(crate) fn of_commit(refusal: CommitRefusal) -> Stop
        ensures { commit_refusal_reported result ≡ Some refusal }
    {
        match refusal {
            CommitRefusal::Unvouched { key } => Stop::Refused(JobRefusal::Unvouched { key }),
            CommitRefusal::Store(cause) => Stop::of_store(cause),
        }
    }

    /// An end of a run on these reads, other than its last statement.
    fn of_end(end: End, reads: Sequence<ReadAnswer>) -> Stop
        requires { end ≢ Done }
        ensures end { end_reported result ≡ Some end }
        ensures reads { reads_reported result ≡ Some reads }
    {
        match end {
            End::Done => unreachable!(),
            End::Aborted(text) => Stop::Aborted { text, reads },
            End::Faulted(fault) => Stop::Faulted { fault, reads },
        }
    }

    /// A run on these reads that came to an end other than its last statement.
    pub(crate) fn of_run(run: Run, reads: Sequence<ReadAnswer>) -> Stop
        requires { run.end ≢ Done }
        ensures end { end_reported result ≡ Some run.end }
        ensures reads { reads_reported result ≡ Some reads }
    {
        Stop::of_end(run.end, reads)
    }

    /// The job's end, where it is one: out of memory is none.
    pub(crate) fn end(self) -> Result<JobEnd, AllocError>
        ensures end { IfOk result (λ end. is_committed end ≡ false) }
        ensures reported { IfOk result (λ end. job_end_reported self ≡ Some end) }
        ensures want { IfErr result (λ error. self ≡ OutOfMemory) }
        ensures not_out_of_memory { OnOk result (self ≢ OutOfMemory) }
    {
        match self {
            Stop::OutOfMemory => Err(AllocError),
            Stop::Aborted { text, reads } => Ok(JobEnd::Aborted { text, reads }),
            Stop::Faulted { fault, reads } => Ok(JobEnd::Faulted { fault, reads }),
            Stop::Refused(refusal) => Ok(JobEnd::Refused(refusal)),
        }
    }
}
