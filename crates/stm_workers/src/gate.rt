//! Places at which a run of jobs can be watched or held.

/// What each worker calls without the lock, with the job's place. A call may look again and again for what another thread does, as far as
/// it ends by itself: the worker goes on when it returns.
pub trait Gate {
    /// A key or a list is about to be fetched for the job.
    fn before_fetch(&self, job: usize);

    /// A commit of the job is about to be sent.
    fn before_commit(&self, job: usize);

    /// A commit of the job was answered, by a verdict or by a refusal.
    fn after_commit(&self, job: usize);
}

/// A gate that is open.
#[derive(Clone, Copy)]
pub struct NoGate;

impl Gate for NoGate {
    fn before_fetch(&self, _job: usize) {}

    fn before_commit(&self, _job: usize) {}

    fn after_commit(&self, _job: usize) {}
}
