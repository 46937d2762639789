//! Why the threads of a run are given up.
ghost use Rattle.std.specs.Prelude.{◌≡◌};
ghost use Rattle.stm_workers.specs.Causes.{cause_of};

use std::alloc::AllocError;
use stm_job::FaultCause;

/// Why the threads of a run are given up, before there is anything to audit.
#[derive(Clone, Copy)]
pub(crate) enum ThreadFault {
    OutOfMemory,
    Spawn,
}

impl From<AllocError> for ThreadFault {
    ghost use Rattle.std.specs.Prelude.{◌≡◌};
    ghost use Rattle.stm_workers.specs.declared.thread_fault.ThreadFault.TheVariants.{OutOfMemory};

    ghost from_gives = { λ error lost. lost ≡ OutOfMemory };

    fn from(_error: AllocError) -> ThreadFault {
        ThreadFault::OutOfMemory
    }
}

impl ThreadFault {
    /// The cause that is reported of it. It is no audit.
    pub fn cause(self) -> FaultCause
        ensures { result ≡ cause_of self }
    {
        match self {
            ThreadFault::OutOfMemory => FaultCause::OutOfMemory,
            ThreadFault::Spawn => FaultCause::Spawn,
        }
    }
}
