//! Why a call of the store is refused.
ghost use Rattle.std.specs.Prelude.{◌≡◌};
ghost use Rattle.stm_outcome.specs.Names.{refusal_name};

use std::alloc::AllocError;
use std::error::Error;
use std::fmt;

/// Why a call of the store is refused. A refused call leaves the store as it was, but for an `advance` (`AdvanceRefused` says what that
/// leaves), and for a `poll` of a lost watcher.
///
/// `Display` gives the refusal's name, as it is spelled here.
#[derive(Debug, Clone, Copy, PartialEq, Eq)]
pub enum Refusal {
    /// An allocation failed.
    OutOfMemory,
    /// A key is empty, or the first key of a range is.
    EmptyKey,
    /// A revision is above the store's counter.
    FutureRevision,
    /// A revision is below the store's floor, or at it where it was to be made the floor; or a watcher is lost, since
    /// events that it still had to be notified of are of such a revision.
    Compacted,
    /// Something was to change at the highest revision.
    RevisionsUsedUp,
    /// The lease is live already.
    LeaseExists,
    /// A time to live is outside 1 to `stm_leases::HIGHEST_TTL` seconds.
    TtlOutOfRange,
    /// A lease id is outside 1 to `stm_leases::HIGHEST_ID`.
    LeaseIdOutOfRange,
    /// The lease is not live.
    LeaseNotFound,
    /// There is no such watcher, or it was cancelled.
    NoWatcher,
    /// One of a transaction's three lists has more elements than the store takes, which are 128 or fewer.
    TooManyOps,
    /// A branch puts a key twice, or puts and deletes it.
    DuplicateKey,
    /// A moment is below the store's.
    TimeGoesBack,
}

impl Refusal {
    /// The name of the refusal.
    pub fn name(self) -> &'static str
        ensures { result.now ≡ refusal_name self }
    {
        match self {
            Refusal::OutOfMemory => "OutOfMemory",
            Refusal::EmptyKey => "EmptyKey",
            Refusal::FutureRevision => "FutureRevision",
            Refusal::Compacted => "Compacted",
            Refusal::RevisionsUsedUp => "RevisionsUsedUp",
            Refusal::LeaseExists => "LeaseExists",
            Refusal::TtlOutOfRange => "TtlOutOfRange",
            Refusal::LeaseIdOutOfRange => "LeaseIdOutOfRange",
            Refusal::LeaseNotFound => "LeaseNotFound",
            Refusal::NoWatcher => "NoWatcher",
            Refusal::TooManyOps => "TooManyOps",
            Refusal::DuplicateKey => "DuplicateKey",
            Refusal::TimeGoesBack => "TimeGoesBack",
        }
    }
}

impl fmt::Display for Refusal {
    ghost use Rattle.std.specs.Prelude.{Some};
    ghost use Rattle.stm_outcome.specs.Names.{refusal_name};

    ghost output = { λ refusal. Some (refusal_name refusal) };

    fn fmt<W: fmt::Write>(&self, f: &mut fmt::Formatter<W>) -> fmt::Result {
        fmt::Display::fmt(&self.name(), f)
    }
}

impl Error for Refusal {}

impl From<AllocError> for Refusal {
    ghost use Rattle.std.specs.Prelude.{◌≡◌};
    ghost use Rattle.stm_outcome.specs.declared.refusal.Refusal.TheVariants.{OutOfMemory};

    ghost from_gives = { λ e r. r ≡ OutOfMemory };

    fn from(_error: AllocError) -> Refusal {
        Refusal::OutOfMemory
    }
}
