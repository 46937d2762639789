//! Why the store refuses a call of a job.
ghost use Rattle.std.specs.Prelude.{◌≡◌, ◌≢◌};
ghost use Rattle.stm_outcome.specs.declared.refusal.Refusal.TheVariants.{OutOfMemory};

use stm_txn::Refusal;

/// A refusal of the store other than out of memory: that ends the run of all jobs, and never a job.
#[derive(Debug, Clone, Copy)]
pub struct LastingRefusal {
    /// Why the call was refused.
    pub cause: Refusal,
    pub ghost is_not_out_of_memory: { cause ≢ OutOfMemory },
}

impl LastingRefusal {
    /// The refusal for this cause, which is not out of memory.
    pub fn of(cause: Refusal) -> LastingRefusal
        requires { cause ≢ OutOfMemory }
        ensures { result.cause ≡ cause }
    {
        LastingRefusal { cause }
    }
}
