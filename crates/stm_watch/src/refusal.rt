//! Why a call of the watchers is refused.
ghost use Rattle.std.specs.Prelude.{◌≡◌};
ghost use Rattle.stm_watch.specs.Names.{watch_refusal_name, poll_refusal_name};

use std::alloc::AllocError;
use std::error::Error;
use std::fmt;

/// Why a watch does not begin. The watchers are then as they were.
#[derive(Debug, Drop, Clone, Copy, PartialEq, Eq)]
pub enum WatchRefusal {
    /// The key, or the first key of the range, is empty.
    EmptyKey,
    /// A growth was refused.
    OutOfMemory,
}

impl WatchRefusal {
    /// The name of the refusal, as a report spells it.
    pub fn name(self) -> &'static str
        ensures { result.now ≡ watch_refusal_name self }
    {
        match self {
            WatchRefusal::EmptyKey => "EmptyKey",
            WatchRefusal::OutOfMemory => "OutOfMemory",
        }
    }
}

impl fmt::Display for WatchRefusal {
    ghost use Rattle.std.specs.Prelude.{Some};
    ghost use Rattle.stm_watch.specs.Names.{watch_refusal_name};

    ghost output = { λ refusal. Some (watch_refusal_name refusal) };

    fn fmt<W: fmt::Write>(&self, f: &mut fmt::Formatter<W>) -> fmt::Result {
        fmt::Display::fmt(&self.name(), f)
    }
}

impl Error for WatchRefusal {}

impl From<AllocError> for WatchRefusal {
    ghost use Rattle.std.specs.Prelude.{◌≡◌};
    ghost use Rattle.stm_watch.specs.declared.refusal.WatchRefusal.TheVariants.{OutOfMemory};

    ghost from_gives = { λ e r. r ≡ OutOfMemory };

    fn from(_error: AllocError) -> WatchRefusal {
        WatchRefusal::OutOfMemory
    }
}

/// Why a poll is refused. It cancels a watcher that was lost, and otherwise leaves the watchers as they were: a poll
/// in which an allocation failed gives the same batch later.
#[derive(Debug, Drop, Clone, Copy, PartialEq, Eq)]
pub enum PollRefusal {
    /// There is no such watcher, or it was cancelled.
    NoWatcher,
    /// The watcher is lost: events that it was to see are of a revision below the store's floor.
    Compacted,
    /// A growth was refused.
    OutOfMemory,
}

impl PollRefusal {
    /// The name of the refusal, as a report spells it.
    pub fn name(self) -> &'static str
        ensures { result.now ≡ poll_refusal_name self }
    {
        match self {
            PollRefusal::NoWatcher => "NoWatcher",
            PollRefusal::Compacted => "Compacted",
            PollRefusal::OutOfMemory => "OutOfMemory",
        }
    }
}

impl fmt::Display for PollRefusal {
    ghost use Rattle.std.specs.Prelude.{Some};
    ghost use Rattle.stm_watch.specs.Names.{poll_refusal_name};

    ghost output = { λ refusal. Some (poll_refusal_name refusal) };

    fn fmt<W: fmt::Write>(&self, f: &mut fmt::Formatter<W>) -> fmt::Result {
        fmt::Display::fmt(&self.name(), f)
    }
}

impl Error for PollRefusal {}

impl From<AllocError> for PollRefusal {
    ghost use Rattle.std.specs.Prelude.{◌≡◌};
    ghost use Rattle.stm_watch.specs.declared.refusal.PollRefusal.TheVariants.{OutOfMemory};

    ghost from_gives = { λ e r. r ≡ OutOfMemory };

    fn from(_error: AllocError) -> PollRefusal {
        PollRefusal::OutOfMemory
    }
}

/// There is no such watcher, or it was cancelled.
#[derive(Debug, Drop, Clone, Copy, PartialEq, Eq)]
pub struct NoWatcher;

impl fmt::Display for NoWatcher {
    ghost use Rattle.std.specs.Prelude.{Some, codes};

    ghost output = { λ _. Some (codes "NoWatcher") };

    fn fmt<W: fmt::Write>(&self, f: &mut fmt::Formatter<W>) -> fmt::Result {
        fmt::Display::fmt(&"NoWatcher", f)
    }
}

impl Error for NoWatcher {}
