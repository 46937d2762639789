//! Why the program could not do what it was asked for with a world that lasts.
ghost use Rattle.std.specs.Prelude.{◌≡◌, ℕ};
ghost use Rattle.stm_storing.specs.Faults.{opening_fault, keeping_fault, IsOfOpening, IsOfRewriting};

use std::alloc::AllocError;
use std::error::Error;
use std::fmt;
use stm_devices::DeviceFault;
use stm_lasting::{KeepFault, KeptFault};

/// Why a command over a file failed. `Display` says it of the file.
#[derive(Clone, Copy, Debug, PartialEq, Eq)]
pub enum StoreFault {
    /// An allocation failed.
    OutOfMemory,
    /// The disk failed.
    Disk,
    /// The file would be longer than 2^60 bytes.
    Full,
    /// The record at this offset is not as it was written.
    Damaged(usize),
    /// The record at this offset spells no scenario.
    NoScenario(usize),
    /// The scenario says what its store opens with, and the file has a store already.
    OpenAlready,
    /// The revision that was asked for is above the store's.
    FutureRevision,
    /// The revision that was asked for is below the lowest one that can be read.
    Compacted,
    /// No checkpoint at that revision shows the same, or it would be longer than 16 MiB, or a runner runs, or a watcher is open.
    CannotCompact,
    /// The report could not be written.
    Output,
    /// A thread could not be started.
    NoThread,
    /// The end of this job is not what the hall says.
    Audit(u64),
    /// What was to be kept does not do what was run: the transactions that were made of what jobs have changed, or the scenario of a program's run. Nothing
    /// was kept.
    Disagrees,
}

impl StoreFault {
    /// Why a file could not be opened.
    pub fn of_opening(fault: KeptFault) -> StoreFault
        ensures value { result ≡ opening_fault fault }
        ensures damaged { (at : ℕ) → result ≡ StoreFault.Damaged at → fault ≡ KeptFault.Damaged at }
        ensures spelled { (at : ℕ) → result ≡ StoreFault.NoScenario at → fault ≡ KeptFault.NoScenario at }
        ensures opening { IsOfOpening result }
    {
        match fault {
            KeptFault::OutOfMemory => StoreFault::OutOfMemory,
            KeptFault::Failed => StoreFault::Disk,
            KeptFault::Damaged(at) => StoreFault::Damaged(at),
            KeptFault::NoScenario(at) => StoreFault::NoScenario(at),
        }
    }

    /// Why a world could not be kept.
    pub fn of_keeping(fault: KeepFault) -> StoreFault
        ensures value { result ≡ keeping_fault fault }
        ensures rewriting { IsOfRewriting result }
    {
        match fault {
            KeepFault::OutOfMemory => StoreFault::OutOfMemory,
            KeepFault::Failed => StoreFault::Disk,
            KeepFault::Full => StoreFault::Full,
        }
    }
}

impl From<AllocError> for StoreFault {
    ghost use Rattle.std.specs.Prelude.{◌≡◌};
    ghost use Rattle.stm_storing.specs.declared.fault.StoreFault.TheVariants.{OutOfMemory};

    ghost from_gives = { λ _ e. e ≡ OutOfMemory };

    fn from(_error: AllocError) -> StoreFault {
        StoreFault::OutOfMemory
    }
}

impl From<DeviceFault> for StoreFault {
    ghost use Rattle.std.specs.Prelude.{◌≡◌};
    ghost use Rattle.stm_storing.specs.declared.fault.StoreFault.TheVariants.{Output};

    ghost from_gives = { λ _ e. e ≡ Output };

    fn from(_fault: DeviceFault) -> StoreFault {
        StoreFault::Output
    }
}

impl fmt::Display for StoreFault {
    fn fmt<W: fmt::Write>(&self, f: &mut fmt::Formatter<W>) -> fmt::Result {
        match self {
            StoreFault::OutOfMemory => f.write_str("out of memory"),
            StoreFault::Disk => f.write_str("the disk failed"),
            StoreFault::Full => f.write_str("the file would be too long"),
            StoreFault::Damaged(at) => write!(f, "damaged at byte {at}: nothing was changed"),
            StoreFault::NoScenario(at) => write!(f, "the record at byte {at} is no scenario"),
            StoreFault::OpenAlready => {
                f.write_str(
                    "the store is there already: only its first scenario may begin with [\"begin\",..]",
                )
            }
            StoreFault::FutureRevision => f.write_str("the store has not come to that revision"),
            StoreFault::Compacted => f.write_str("that revision is compacted"),
            StoreFault::CannotCompact => {
                f.write_str(
                    "cannot be compacted there: a runner runs, a watcher is open, a lease that has ended since was granted again, or what is left is longer than 16 MiB",
                )
            }
            StoreFault::Output => f.write_str("the report could not be written"),
            StoreFault::NoThread => f.write_str("no thread"),
            StoreFault::Audit(job) => write!(f, "audit {job}"),
            StoreFault::Disagrees => f.write_str(
                "what was run could not be kept: it would not do the same again",
            ),
        }
    }
}

impl Error for StoreFault {}
