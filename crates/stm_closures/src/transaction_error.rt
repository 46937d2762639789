//! Why a call of a transaction is refused.
use std::alloc::AllocError;
use std::error::Error;
use std::fmt;
use stm_hall::FetchRefusal;

/// Why a key was not read or not written. The transaction is then as it was.
///
/// `Display` gives the refusal's name.
#[derive(Debug, Clone, Copy)]
pub enum TransactionError {
    /// An allocation failed.
    OutOfMemory,
    /// The store refused the fetch: the key is empty, or the revision that all reads are of was compacted.
    Fetch(FetchRefusal),
}

impl fmt::Display for TransactionError {
    fn fmt<W: fmt::Write>(&self, f: &mut fmt::Formatter<W>) -> fmt::Result {
        match self {
            TransactionError::OutOfMemory => fmt::Display::fmt(&"OutOfMemory", f),
            TransactionError::Fetch(refusal) => fmt::Display::fmt(refusal, f),
        }
    }
}

impl Error for TransactionError {}

impl From<AllocError> for TransactionError {
    fn from(_error: AllocError) -> TransactionError {
        TransactionError::OutOfMemory
    }
}

impl From<FetchRefusal> for TransactionError {
    fn from(refusal: FetchRefusal) -> TransactionError {
        TransactionError::Fetch(refusal)
    }
}
