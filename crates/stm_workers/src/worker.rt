//! What a worker has, and who starts the workers and takes in what they hand back.
ghost use Rattle.std.specs.Prelude.{◌≡◌, ◌+◌, ◌<◌, ◌≤◌, [], All, OnOk};
ghost use Rattle.stm_job.specs.Draw.{newcomer, EachOnce};
ghost use Rattle.stm_job.specs.Seats.{IsSeatAt, seat_view, table_id, table_size};
ghost use Rattle.stm_workers.specs.Runs.{HasItsRun};
ghost use Rattle.stm_workers.specs.Drawn.{jobs_of, committed_in, drawing, used_up, HasDrawnAll};

use crate::locked::RunOfJobs;
use std::alloc::{AllocError, Global};
use std::sync::ledger::Share;
use stm_history::{Sequence, Text};
use stm_job::{JobEnd, JobSeat, JobTable};

/// The end of one job.
#[derive(Drop)]
pub struct EndOf {
    /// The job's place.
    pub job: usize,
    pub end: JobEnd,
    /// The keys over which its commits failed before its last attempt.
    pub lost: Sequence<Text>,
}

/// A worker at its jobs, between two of them: a seat with one pass left, one part of the ledger, the greatest revision that an answer to
/// it carried, and the ends of the jobs that it drew, in the order of its draws.
#[derive(Drop)]
pub(crate) struct Worker<R: RunOfJobs> {
    pub seat: JobSeat,
    pub share: Share<R>,
    pub seen: u64,
    pub ended: Vec<EndOf>,
    ghost seated: { IsSeatAt R.table R.size seat },
    ghost one_left: { seat_view seat ≡ drawing R.size (jobs_of ended.items) },
    ghost counted: { (share.parts ≡ 1) × (share.amount ≡ committed_in ended.items) },
    ghost ran: { All (HasItsRun R.before R.jobs) ended.items },
}

/// A worker that found no job left.
#[derive(Drop)]
pub(crate) struct RetiredWorker<R: RunOfJobs> {
    pub seat: JobSeat,
    pub share: Share<R>,
    pub ended: Vec<EndOf>,
    ghost seated: { IsSeatAt R.table R.size seat },
    ghost none_left: { seat_view seat ≡ used_up R.size (jobs_of ended.items) },
    ghost counted: { (share.parts ≡ 1) × (share.amount ≡ committed_in ended.items) },
    ghost ran: { All (HasItsRun R.before R.jobs) ended.items },
}

/// A worker after it looked for a job.
#[derive(Drop)]
pub(crate) enum WorkerStep<R: RunOfJobs> {
    /// It has brought one more job to its end.
    Working(Worker<R>),
    /// It found none.
    Retired(RetiredWorker<R>),
}

/// Who starts the workers, and takes in what they hand back. It draws nothing itself. Of what it has, each pass of its seat, used or
/// left, goes with a part of the ledger.
#[derive(Drop)]
pub(crate) struct Coordinator<R: RunOfJobs> {
    pub seat: JobSeat,
    pub share: Share<R>,
    pub ended: Vec<EndOf>,
    ghost seated: { IsSeatAt R.table R.size seat },
    ghost drawn: { (seat_view seat).drawn ≡ jobs_of ended.items },
    ghost counted: { share.amount ≡ committed_in ended.items },
    ghost ran: { All (HasItsRun R.before R.jobs) ended.items },
    ghost even: { (seat_view seat).past + (seat_view seat).left ≡ share.parts },
}

/// A coordinator that has everything back.
#[derive(Drop)]
pub(crate) struct Collected<R: RunOfJobs> {
    pub coordinator: Coordinator<R>,
    ghost all_parts: { coordinator.share.parts ≡ R.size.seats },
    ghost some_past: { 0 < (seat_view coordinator.seat).past },
}

impl<R: RunOfJobs> Worker<R> {
    /// A worker that has brought these jobs to their ends.
    pub fn at_work(seat: JobSeat, share: Share<R>, seen: u64, ended: Vec<EndOf>) -> Worker<R>
        requires seated { IsSeatAt R.table R.size seat }
        requires one_left { seat_view seat ≡ drawing R.size (jobs_of ended.items) }
        requires counted { (share.parts ≡ 1) × (share.amount ≡ committed_in ended.items) }
        requires ran { All (HasItsRun R.before R.jobs) ended.items }
        ensures seen { result.seen ≡ seen }
        ensures ended { result.ended.items ≡ ended.items }
    {
        Worker {
            seat,
            share,
            seen,
            ended,
        }
    }
}

impl<R: RunOfJobs> RetiredWorker<R> {
    /// A worker that has brought these jobs to their ends, and found no more.
    pub fn at_rest(seat: JobSeat, share: Share<R>, ended: Vec<EndOf>) -> RetiredWorker<R>
        requires seated { IsSeatAt R.table R.size seat }
        requires none_left { seat_view seat ≡ used_up R.size (jobs_of ended.items) }
        requires counted { (share.parts ≡ 1) × (share.amount ≡ committed_in ended.items) }
        requires ran { All (HasItsRun R.before R.jobs) ended.items }
    {
        RetiredWorker { seat, share, ended }
    }
}

impl<R: RunOfJobs> Coordinator<R> {
    /// With the first seat and the first share.
    pub fn new(alloc: Global, seat: JobSeat, share: Share<R>) -> Coordinator<R>
        requires seat { IsSeatAt R.table R.size seat × (seat_view seat ≡ newcomer R.size) }
        requires share { (share.parts ≡ R.size.seats) × (share.amount ≡ 0) }
        ensures { (result.seat ≡ seat) × (result.share ≡ share) × (result.ended.items ≡ []) }
    {
        Coordinator {
            seat,
            share,
            ended: Vec::new(alloc),
        }
    }

    /// The next worker, which has drawn nothing yet. It takes no memory.
    pub fn equip(&mut self, alloc: Global, table: &JobTable) -> Worker<R>
        requires table { (table_id table.now ≡ R.table) × (table_size table.now ≡ R.size) }
        requires passes { 2 ≤ (seat_view self.old.seat).left }
        requires parts { 2 ≤ self.old.share.parts }
        ensures left { (seat_view self.new.seat).left + 1 ≡ (seat_view self.old.seat).left }
        ensures past { (seat_view self.new.seat).past ≡ (seat_view self.old.seat).past }
        ensures parts { self.new.share.parts + 1 ≡ self.old.share.parts }
    {
        let seat = table.split(&mut self.seat);
        let share = self.share.split_off(1, 0);
        Worker::at_work(seat, share, 0, Vec::new(alloc))
    }

    /// Takes in what a worker hands back. `AllocError`: an allocation failed, and it is as it was; what the worker had is lost.
    pub fn take_in(&mut self, table: &JobTable, retired: RetiredWorker<R>) -> Result<(), AllocError>
        requires { (table_id table.now ≡ R.table) × (table_size table.now ≡ R.size) }
        ensures past { OnOk result ((seat_view self.new.seat).past ≡ (seat_view self.old.seat).past + 1) }
        ensures parts { OnOk result (self.new.share.parts ≡ self.old.share.parts + 1) }
    {
        let RetiredWorker {
            seat,
            share,
            mut ended,
        } = retired;
        self.ended.append(&mut ended)?;
        table.join(&mut self.seat, seat);
        self.share.merge(share);
        Ok(())
    }
}

impl<R: RunOfJobs> Collected<R> {
    /// This coordinator.
    pub fn of(coordinator: Coordinator<R>) -> Collected<R>
        requires parts { coordinator.share.parts ≡ R.size.seats }
        requires past { 0 < (seat_view coordinator.seat).past }
    {
        Collected { coordinator }
    }

    /// The whole share, the ends of all jobs, and the seat that has drawn them: each job once.
    pub fn into_pieces(self) -> (Share<R>, Vec<EndOf>, JobSeat)
        ensures share { (result.0.parts ≡ R.size.seats) × (result.0.amount ≡ committed_in result.1.items) }
        ensures each_once { EachOnce R.size.jobs (jobs_of result.1.items) }
        ensures drawn { HasDrawnAll R.size result.2 }
        ensures ran { All (HasItsRun R.before R.jobs) result.1.items }
    {
        let Collected { coordinator } = self;
        let Coordinator { seat, share, ended } = coordinator;
        // (the seat knows that every job was drawn)
        let _passes = seat.left();
        (share, ended, seat)
    }
}
