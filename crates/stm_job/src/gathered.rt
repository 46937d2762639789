//! What a run of jobs comes to.
use crate::drawing::JobSeat;
use crate::job_end::JobEnd;
use stm_hall::Hall;
use stm_history::{Sequence, Text};

/// All jobs have ended.
#[derive(Drop)]
pub struct Gathered {
    /// The end of each job, at its place.
    pub ends: Vec<JobEnd>,
    /// The keys over which commits of each job failed before its last attempt, at its place and in their order: it has made one attempt more.
    pub lost: Vec<Sequence<Text>>,
    /// How many committed.
    pub committed: usize,
    /// The seat that has drawn the jobs, each once.
    pub seat: JobSeat,
    /// The hall that was handed in, with what was committed.
    pub hall: Hall,
}

/// The run was broken off. All threads have ended, and some jobs may have no end.
#[derive(Drop)]
pub struct RunFault {
    pub cause: FaultCause,
    /// The end of each job, at its place, where an audit found one that does not stand, or had no memory to look; none where the run was broken off
    /// before.
    pub ends: Vec<JobEnd>,
    /// The hall that was handed in, with what was committed until then.
    pub hall: Hall,
}

/// Why a run of jobs is broken off.
#[derive(Debug, Clone, Copy, PartialEq, Eq)]
pub enum FaultCause {
    /// An allocation failed, in a worker or in the hall.
    OutOfMemory,
    /// A thread could not be started.
    Spawn,
    /// The end of a job is not what the hall says.
    Audit {
        /// The job's place.
        job: usize,
    },
}
