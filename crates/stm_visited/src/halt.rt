//! What stops a search.
ghost use Rattle.std.specs.Prelude.{◌≡◌};

use std::alloc::AllocError;

/// What stops a search before it has an answer.
#[derive(Debug, Clone, Copy, PartialEq, Eq)]
pub enum Halt {
    /// An allocation failed.
    OutOfMemory,
    /// All moves that may be made were made.
    Spent,
}

impl From<AllocError> for Halt {
    ghost use Rattle.stm_visited.specs.declared.halt.Halt.TheVariants.{OutOfMemory};

    ghost from_gives = { λ _ halt. halt ≡ OutOfMemory };

    fn from(_error: AllocError) -> Halt {
        Halt::OutOfMemory
    }
}
