//! Why a fetch or a commit is refused. A refused one leaves the journal as it was.
ghost use Rattle.std.specs.Prelude.{◌≡◌};
ghost use Rattle.stm_journal.specs.Names.{fetch_refusal_name, commit_refusal_name};

use std::alloc::AllocError;
use std::error::Error;
use std::fmt;
use stm_history::Text;
use stm_txn::Refusal;

/// Why a fetch is refused.
///
/// `Display` gives the refusal's name.
#[derive(Debug, Clone, Copy, PartialEq, Eq)]
pub enum FetchRefusal {
    /// The store's counter is below a revision that the caller has seen: it was seen elsewhere.
    Behind {
        /// The revision that the caller has seen.
        seen: u64,
        /// The store's counter.
        now: u64,
    },
    /// The store refused the reads.
    Store(Refusal),
}

impl FetchRefusal {
    /// The name of the refusal.
    pub fn name(self) -> &'static str
        ensures { result.now ≡ fetch_refusal_name self }
    {
        match self {
            FetchRefusal::Behind { .. } => "Behind",
            FetchRefusal::Store(cause) => cause.name(),
        }
    }
}

impl fmt::Display for FetchRefusal {
    ghost use Rattle.std.specs.Prelude.{Some};
    ghost use Rattle.stm_journal.specs.Names.{fetch_refusal_name};

    ghost output = { λ refusal. Some (fetch_refusal_name refusal) };

    fn fmt<W: fmt::Write>(&self, f: &mut fmt::Formatter<W>) -> fmt::Result {
        fmt::Display::fmt(&self.name(), f)
    }
}

impl Error for FetchRefusal {}

/// Why a commit is refused.
///
/// `Display` gives the refusal's name.
#[derive(Debug, Drop)]
pub enum CommitRefusal {
    /// A key that the attempt says it read has the modification revision that it names, and another value.
    Unvouched {
        /// The key.
        key: Text,
    },
    /// The store refused the transaction.
    Store(Refusal),
}

impl CommitRefusal {
    /// The name of the refusal.
    pub fn name(&self) -> &'static str
        ensures { result.now ≡ commit_refusal_name self.now }
    {
        match self {
            CommitRefusal::Unvouched { .. } => "Unvouched",
            CommitRefusal::Store(cause) => (*cause).name(),
        }
    }
}

impl fmt::Display for CommitRefusal {
    ghost use Rattle.std.specs.Prelude.{Some};
    ghost use Rattle.stm_journal.specs.Names.{commit_refusal_name};

    ghost output = { λ refusal. Some (commit_refusal_name refusal) };

    fn fmt<W: fmt::Write>(&self, f: &mut fmt::Formatter<W>) -> fmt::Result {
        fmt::Display::fmt(&self.name(), f)
    }
}

impl Error for CommitRefusal {}

impl From<Refusal> for CommitRefusal {
    ghost use Rattle.std.specs.Prelude.{◌≡◌};
    ghost use Rattle.stm_journal.specs.declared.refusal.CommitRefusal.TheVariants.{Store};

    ghost from_gives = { λ cause refusal. refusal ≡ Store cause };

    fn from(cause: Refusal) -> CommitRefusal {
        CommitRefusal::Store(cause)
    }
}

impl From<AllocError> for CommitRefusal {
    ghost use Rattle.std.specs.Prelude.{◌≡◌};
    ghost use Rattle.stm_outcome.specs.declared.refusal.Refusal.TheVariants.{OutOfMemory};
    ghost use Rattle.stm_journal.specs.declared.refusal.CommitRefusal.TheVariants.{Store};

    ghost from_gives = { λ error refusal. refusal ≡ Store OutOfMemory };

    fn from(_error: AllocError) -> CommitRefusal {
        CommitRefusal::Store(Refusal::OutOfMemory)
    }
}
