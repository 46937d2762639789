//! Why a world could not be opened or kept.
ghost use Rattle.std.specs.Prelude.{◌≡◌};

use stm_records::DiskFault;
use thiserror::Error;

/// Why a file could not be opened.
#[derive(Clone, Copy, Debug, PartialEq, Eq, Error)]
pub enum KeptFault {
    /// An allocation failed.
    #[error("out of memory")]
    OutOfMemory,
    /// The disk failed when the file's torn end was cut off.
    #[error("the disk failed")]
    Failed,
    /// No record begins at this offset, although one begins further on, or the first record is not whole.
    #[error("damaged at byte {0}")]
    Damaged(usize),
    /// The record that stands at this offset is whole, and spells no scenario.
    #[error("the record at byte {0} is no scenario")]
    NoScenario(usize),
}

/// Why a world could not be kept.
#[derive(Clone, Copy, Debug, PartialEq, Eq, Error)]
pub enum KeepFault {
    /// An allocation failed. The file has the text or not.
    #[error("out of memory")]
    OutOfMemory,
    /// The disk failed. The file has the text or not.
    #[error("the disk failed")]
    Failed,
    /// The text or the file would be longer than 2^60 bytes. The file is as it was.
    #[error("the file would be too long")]
    Full,
}
