//! What all workers of a run share.
ghost use Rattle.std.specs.Prelude.{◌≡◌, ◌<◌, ◌≤◌, All, length, IfOk};
ghost use Rattle.stm_job.specs.Draw.{drew};
ghost use Rattle.stm_job.specs.Seats.{IsSeatAt, seat_view, table_id, table_size};
ghost use Rattle.stm_workers.specs.Runs.{HasItsRun, BringsToEnd};
ghost use Rattle.stm_workers.specs.Drawn.{committed_in, drawing, jobs_of};

use crate::access::HallAccess;
use crate::auditing::job_at;
use crate::gate::Gate;
use crate::locked::{Locked, RunOfJobs};
use crate::worker::{EndOf, RetiredWorker, Worker, WorkerStep};
use std::alloc::{AllocError, Global};
use std::sync::atomic::{AtomicBool, Ordering};
use std::sync::ledger::Share;
use std::sync::{Mutex, Wait};
use stm_history::Sequence;
use stm_job::{Job, JobSeat, JobTable};

/// What all workers of a run share: the lock round the hall, the table that they draw from, the jobs, the gate, and whether the run was given up.
#[derive(Drop)]
pub(crate) struct Shared<'a, R: RunOfJobs, W: Wait, G: Gate> {
    pub rt: &'a W,
    pub alloc: Global,
    locked: &'a Mutex<Locked<R>>,
    pub table: &'a JobTable,
    jobs: &'a [Job],
    gate: &'a G,
    given_up: &'a AtomicBool,
    ghost is_table: { (table_id table.now ≡ R.table) × (table_size table.now ≡ R.size) },
    ghost is_sized: { length jobs.now ≡ R.size.jobs },
    ghost are_its: { jobs.now ≡ R.jobs },
}

impl<'a, R: RunOfJobs, W: Wait, G: Gate> Shared<'a, R, W, G> {
    /// What all workers of a run share. The flag is set once the run is given up.
    pub fn new(
        rt: &'a W,
        alloc: Global,
        locked: &'a Mutex<Locked<R>>,
        table: &'a JobTable,
        jobs: &'a [Job],
        gate: &'a G,
        given_up: &'a AtomicBool,
    ) -> Shared<'a, R, W, G>
        requires table { (table_id table.now ≡ R.table) × (table_size table.now ≡ R.size) }
        requires jobs { (length jobs.now ≡ R.size.jobs) × (jobs.now ≡ R.jobs) }
    {
        Shared {
            rt,
            alloc,
            locked,
            table,
            jobs,
            gate,
            given_up,
        }
    }

    /// Gives the run up: no worker draws another job.
    pub fn give_up(&self) {
        self.given_up.store(true, Ordering::SeqCst);
    }

    /// Whether the run was given up.
    fn is_given_up(&self) -> bool {
        self.given_up.load(Ordering::SeqCst)
    }

    /// What a worker calls the hall with.
    fn access(&self) -> HallAccess<'a, R, W, G> {
        HallAccess {
            rt: self.rt,
            alloc: self.alloc,
            locked: self.locked,
            gate: self.gate,
        }
    }

    /// Brings a job that was drawn to its end. The worker has seen no less then.
    fn bring_to_end(
        &self,
        job: usize,
        seat: JobSeat,
        share: Share<R>,
        seen: u64,
        ended: Vec<EndOf>,
    ) -> Result<Worker<R>, AllocError>
        requires place { job < length self.now.jobs.now }
        requires seated { IsSeatAt R.table R.size seat }
        requires drawn { seat_view seat ≡ drew (drawing R.size (jobs_of ended.items)) job }
        requires counted { (share.parts ≡ 1) × (share.amount ≡ committed_in ended.items) }
        requires ran { All (HasItsRun R.before R.jobs) ended.items }
        ensures seen { IfOk result (λ worker. seen ≤ worker.seen) }
        ensures came { IfOk result (λ worker. BringsToEnd R.before self.now.jobs.now job seen ended.items worker.seen worker.ended.items) }
    {
        let mut share = share;
        let mut most = seen;
        let mut lost = Vec::new(self.alloc);
        let mut ended = ended;
        let it = job_at(self.jobs, job);
        let access = self.access();
        let end = access.run_job(job, it, &mut share, &mut most, &mut lost)?;
        let lost = Sequence::of(lost);
        ended.push(EndOf { job, end, lost })?;
        Ok(Worker::at_work(seat, share, most, ended))
    }

    /// Draws the next job, which the worker brings to its end, or finds none left.
    fn draw_next(&self, worker: Worker<R>) -> Result<WorkerStep<R>, AllocError> {
        let Worker {
            mut seat,
            share,
            seen,
            ended,
        } = worker;
        match self.table.draw(&mut seat) {
            None => Ok(WorkerStep::Retired(RetiredWorker::at_rest(seat, share, ended))),
            Some(job) => {
                let worker = self.bring_to_end(job, seat, share, seen, ended)?;
                Ok(WorkerStep::Working(worker))
            }
        }
    }

    /// What a worker does next: it draws a job and brings it to its end, or finds none left. `AllocError`: an allocation failed, or the run was given
    /// up for another fault; this one is not reported then.
    pub fn next(&self, worker: Worker<R>) -> Result<WorkerStep<R>, AllocError> {
        if self.is_given_up() {
            return Err(AllocError);
        }
        self.draw_next(worker)
    }
}
