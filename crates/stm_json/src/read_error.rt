//! Why an input could not be read.
ghost use Rattle.std.specs.Prelude.{◌≡◌};
ghost use Rattle.stm_json.specs.declared.read_error.ReadError.TheVariants.{OutOfMemory};

use crate::cause::Cause;
use std::alloc::{AllocError, AllocFailed};
use stm_history::Text;
use thiserror::Error;

/// The first fault of an input.
#[derive(Debug, Drop, Error)]
#[error("at {place}: {cause}")]
pub struct BadInput {
    /// Where it stands: a JSON Pointer (RFC 6901) into the value that was read, "" for the whole.
    pub place: Text,
    /// What is wrong there.
    pub cause: Cause,
}

/// Why an input could not be read.
#[derive(Debug, Drop, Error)]
pub enum ReadError {
    /// An allocation failed.
    #[error("out of memory")]
    OutOfMemory,
    /// The input is bad: its first fault.
    #[error(transparent)]
    Bad(BadInput),
}

impl From<AllocError> for ReadError {
    ghost from_gives = { λ _ e. e ≡ OutOfMemory };

    fn from(_error: AllocError) -> ReadError {
        ReadError::OutOfMemory
    }
}

impl<T: Drop> From<AllocFailed<T>> for ReadError {
    ghost from_gives = { λ _ e. e ≡ OutOfMemory };

    fn from(_error: AllocFailed<T>) -> ReadError {
        ReadError::OutOfMemory
    }
}
