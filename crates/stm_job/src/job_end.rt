//! How a job ends.
use crate::lasting_refusal::LastingRefusal;
use stm_history::{ReadAnswer, Sequence, Text};
use stm_meaning::Fault;

/// The end of a job. Out of memory is none: it ends the run of all jobs.
#[derive(Debug, Drop)]
pub enum JobEnd {
    /// It is committed.
    Committed {
        /// The place of its entry among the hall's, from 0.
        index: usize,
        /// The store's revision after it.
        revision: u64,
    },
    /// The program ended by `abort`.
    Aborted {
        /// Its text.
        text: Text,
        /// What its last attempt had read, in the order of first reads.
        reads: Sequence<ReadAnswer>,
    },
    /// The program ended by a fault.
    Faulted {
        /// The fault.
        fault: Fault,
        /// What its last attempt had read, in the order of first reads.
        reads: Sequence<ReadAnswer>,
    },
    /// A fetch or a commit was refused.
    Refused(JobRefusal),
    /// Its last commit failed, and it may send no more.
    GaveUp {
        /// The key of the compare that failed.
        key: Text,
    },
}

impl JobEnd {
    ghost use Rattle.std.specs.Prelude.{◌≡◌};
    ghost use Rattle.stm_job.specs.Ends.{is_committed};

    /// Whether the job committed.
    pub fn is_committed(&self) -> bool
        ensures { result ≡ is_committed self.now }
    {
        match self {
            JobEnd::Committed { .. } => true,
            _ => false,
        }
    }
}

/// Why a call of a job is refused. The hall is as it was.
#[derive(Debug, Drop)]
pub enum JobRefusal {
    /// The store refused it, and memory had not run out.
    Store(LastingRefusal),
    /// The store's counter is below a revision that the worker has seen.
    Behind {
        /// The greatest revision that an answer carried.
        seen: u64,
        /// The store's counter.
        now: u64,
    },
    /// A value that was read is not the store's, though its revision is.
    Unvouched {
        /// The key.
        key: Text,
    },
}
