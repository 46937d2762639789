//! The ends of jobs, each at the place of its job.
ghost use Rattle.std.specs.Prelude.{◌≡◌, List, All, length, count_by, IfOk, IfErr};
ghost use Rattle.stm_job.specs.Draw.{EachOnce};
ghost use Rattle.stm_journal.specs.JournalState.{JournalState};
ghost use Rattle.stm_job.specs.declared.job.Job.{Job as AnyJob};
ghost use Rattle.stm_job.specs.Ends.{is_committed};
ghost use Rattle.stm_workers.specs.declared.thread_fault.ThreadFault.TheVariants.{OutOfMemory};
ghost use Rattle.stm_workers.specs.Runs.{HasItsRun, HaveTheirRuns};
ghost use Rattle.stm_workers.specs.Drawn.{committed_in, ends_in, jobs_of, lost_in, EachAtItsPlace};

use crate::thread_fault::ThreadFault;
use crate::worker::EndOf;
use std::alloc::{AllocError, Global};
use stm_history::{Sequence, Text};
use stm_job::{JobEnd, JobSeat};

/// The ends of jobs and the keys over which their commits failed, each at the place of its job, and the seat that has drawn them.
#[derive(Drop)]
pub(crate) struct Placed {
    pub ends: Vec<JobEnd>,
    pub lost: Vec<Sequence<Text>>,
    pub seat: JobSeat,
}

/// The ends, without the places of their jobs, and the keys over which commits failed before.
fn parts_of(
    alloc: Global,
    ended: Vec<EndOf>,
) -> Result<(Vec<JobEnd>, Vec<Sequence<Text>>), AllocError>
    ensures ends { IfOk result (λ parts. parts.0.items ≡ ends_in ended.items) }
    ensures lost { IfOk result (λ parts. parts.1.items ≡ lost_in ended.items) }
{
    let mut ends = Vec::with_capacity(alloc, ended.len())?;
    let mut all = Vec::with_capacity(alloc, ended.len())?;
    for ended_job in ended {
        let EndOf { end, lost, .. } = ended_job;
        ends.push(end)?;
        all.push(lost)?;
    }
    Ok((ends, all))
}

/// The ends of jobs that were drawn once each, in the order of the jobs: each at the place of its job. `OutOfMemory` is its only fault.
pub(crate) fn place_ends(
    alloc: Global,
    ended: Vec<EndOf>,
    seat: JobSeat,
) -> Result<Placed, ThreadFault>
    requires { EachOnce (length ended.items) (jobs_of ended.items) }
    ensures places { IfOk result (λ placed. EachAtItsPlace ended.items placed.ends.items) }
    ensures length { IfOk result (λ placed. (length placed.ends.items ≡ length ended.items) × (length placed.lost.items ≡ length ended.items)) }
    ensures counted { IfOk result (λ placed. count_by is_committed placed.ends.items ≡ committed_in ended.items) }
    ensures ran { IfOk result (λ placed. (hall : JournalState) (jobs : List AnyJob) → All (HasItsRun hall jobs) ended.items
        → HaveTheirRuns hall jobs placed.ends.items placed.lost.items) }
    ensures seat { IfOk result (λ placed. placed.seat ≡ seat) }
    ensures fault { IfErr result (λ fault. fault ≡ OutOfMemory) }
{
    let mut ended = ended;
    ended.sort_unstable_by_key(|ended_job| ended_job.job);
    let (ends, lost) = parts_of(alloc, ended)?;
    Ok(Placed { ends, lost, seat })
}
