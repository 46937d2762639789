//! Why a call of a disk, or of a file on it, gives up.
ghost use Rattle.std.specs.Prelude.{◌≡◌};
ghost use Rattle.stm_records.specs.declared.fault.DiskFault.TheVariants.{OutOfMemory};

use std::alloc::{AllocError, AllocFailed};
use thiserror::Error;

/// Why a call gives up.
#[derive(Clone, Copy, Debug, PartialEq, Eq, Error)]
pub enum DiskFault {
    /// An allocation failed.
    #[error("out of memory")]
    OutOfMemory,
    /// The disk failed: part of what was asked for may have been done.
    #[error("the disk failed")]
    Failed,
    /// A record, or the file, would be too long.
    #[error("too long")]
    Full,
    /// No record begins at this offset, and the file has a record behind it.
    #[error("damaged at byte {0}")]
    Damaged(usize),
}

impl From<AllocError> for DiskFault {
    ghost from_gives = { λ _ e. e ≡ OutOfMemory };

    fn from(_: AllocError) -> DiskFault {
        DiskFault::OutOfMemory
    }
}

impl<T: Drop> From<AllocFailed<T>> for DiskFault {
    ghost from_gives = { λ _ e. e ≡ OutOfMemory };

    fn from(_: AllocFailed<T>) -> DiskFault {
        DiskFault::OutOfMemory
    }
}
