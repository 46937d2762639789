//! What stops an evaluation.
ghost use Rattle.std.specs.Prelude.{◌≡◌};

use crate::fault::Fault;
use std::alloc::AllocError;
use stm_history::Text;

/// What stops a program before its last statement.
#[derive(Debug, Drop)]
pub enum Stop {
    /// Its `abort`, with the text.
    Aborted(Text),
    /// A fault.
    Faulted(Fault),
    /// A key that the look-up knows nothing of.
    Wants(Text),
}

/// What stops an evaluation.
#[derive(Debug, Drop)]
pub enum Halt {
    /// An allocation failed.
    OutOfMemory,
    /// The program stops here.
    Stopped(Stop),
}

impl From<AllocError> for Halt {
    ghost use Rattle.stm_steps.specs.declared.stop.Halt.TheVariants.{OutOfMemory};

    ghost from_gives = { λ _ halt. halt ≡ OutOfMemory };

    fn from(_error: AllocError) -> Halt {
        Halt::OutOfMemory
    }
}

impl From<Fault> for Halt {
    ghost use Rattle.stm_steps.specs.declared.stop.Halt.TheVariants.{Stopped};
    ghost use Rattle.stm_steps.specs.declared.stop.Stop.TheVariants.{Faulted};

    ghost from_gives = { λ fault halt. halt ≡ Stopped (Faulted fault) };

    fn from(fault: Fault) -> Halt {
        Halt::Stopped(Stop::Faulted(fault))
    }
}
