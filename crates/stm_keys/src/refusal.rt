//! Why a call of the key store is refused.
ghost use Rattle.std.specs.Prelude.{◌≡◌};
ghost use Rattle.stm_keys.specs.ReadNames.{read_refusal_name};
ghost use Rattle.stm_keys.specs.ApplyNames.{apply_refusal_name};

use std::alloc::AllocError;
use std::error::Error;
use std::fmt;

/// Why a key can't be read at a revision, or a store not be compacted at it.
#[derive(Debug, Drop, Clone, Copy, PartialEq, Eq)]
pub enum ReadRefusal {
    /// The revision is above the store's counter.
    FutureRevision,
    /// The revision is below the store's floor; one that a store is to be compacted at may not be the floor either.
    Compacted,
}

impl ReadRefusal {
    /// The name of the refusal, as a report spells it.
    pub fn name(self) -> &'static str
        ensures { result.now ≡ read_refusal_name self }
    {
        match self {
            ReadRefusal::FutureRevision => "FutureRevision",
            ReadRefusal::Compacted => "Compacted",
        }
    }
}

impl fmt::Display for ReadRefusal {
    ghost use Rattle.std.specs.Prelude.{Some};
    ghost use Rattle.stm_keys.specs.ReadNames.{read_refusal_name};

    ghost output = { λ refusal. Some (read_refusal_name refusal) };

    fn fmt<W: fmt::Write>(&self, f: &mut fmt::Formatter<W>) -> fmt::Result {
        fmt::Display::fmt(&self.name(), f)
    }
}

impl Error for ReadRefusal {}

/// Why changes are not applied. The store is then as it was.
#[derive(Debug, Drop, Clone, Copy, PartialEq, Eq)]
pub enum ApplyRefusal {
    /// The counter is at the highest revision.
    RevisionsUsedUp,
    /// A growth was refused.
    OutOfMemory,
}

impl ApplyRefusal {
    /// The name of the refusal, as a report spells it.
    pub fn name(self) -> &'static str
        ensures { result.now ≡ apply_refusal_name self }
    {
        match self {
            ApplyRefusal::RevisionsUsedUp => "RevisionsUsedUp",
            ApplyRefusal::OutOfMemory => "OutOfMemory",
        }
    }
}

impl fmt::Display for ApplyRefusal {
    ghost use Rattle.std.specs.Prelude.{Some};
    ghost use Rattle.stm_keys.specs.ApplyNames.{apply_refusal_name};

    ghost output = { λ refusal. Some (apply_refusal_name refusal) };

    fn fmt<W: fmt::Write>(&self, f: &mut fmt::Formatter<W>) -> fmt::Result {
        fmt::Display::fmt(&self.name(), f)
    }
}

impl Error for ApplyRefusal {}

impl From<AllocError> for ApplyRefusal {
    ghost use Rattle.std.specs.Prelude.{◌≡◌};
    ghost use Rattle.stm_keys.specs.declared.refusal.ApplyRefusal.TheVariants.{OutOfMemory};

    ghost from_gives = { λ e r. r ≡ OutOfMemory };

    fn from(_error: AllocError) -> ApplyRefusal {
        ApplyRefusal::OutOfMemory
    }
}
