//! Who follows a search, and what stops it.
ghost use Rattle.std.specs.Prelude.{◌≡◌};

use std::alloc::AllocError;
use stm_events::EventRefusal;
use stm_meaning::Run;
use stm_retry::World;

/// Who is asked before each move of a search whether it may be made, and is notified of how each whole run ended.
pub trait Follower {
    /// Whether one move more may be made. Where it may not, the search is stopped.
    fn may_move(&mut self) -> bool;

    /// A walk through the serial orders begins.
    fn begins(&mut self) {}

    /// A walk has come to a place: that from which it began, or one behind a move. This is the world there.
    fn came(&mut self, _world: &World) {}

    /// A runner's program was run alone: this is its run. Where it came to its last statement, its writes were applied.
    fn ran(&mut self, runner: u64, run: &Run);

    /// A runner's program was run alone and did not come to its last statement: this is its run, and the world that it left as it was.
    fn stopped(&mut self, _world: &World, _runner: u64, _run: &Run) {}

    /// A runner's program was run alone to its last statement, but the store refused its writes.
    fn refused(&mut self, runner: u64, cause: EventRefusal);
}

/// What stops a search before it has an answer.
#[derive(Debug, Clone, Copy, PartialEq, Eq)]
pub enum Halt {
    /// An allocation failed.
    OutOfMemory,
    /// No further move may be made.
    Stopped,
}

impl From<AllocError> for Halt {
    ghost use Rattle.stm_serial_search.specs.declared.following.Halt.TheVariants.{OutOfMemory};

    ghost from_gives = { λ _ halt. halt ≡ OutOfMemory };

    fn from(_error: AllocError) -> Halt {
        Halt::OutOfMemory
    }
}

/// Asks whether one move more may be made.
pub(crate) fn ask<F: Follower>(follower: &mut F) -> Result<(), Halt> {
    if follower.may_move() {
        return Ok(());
    }
    Err(Halt::Stopped)
}
