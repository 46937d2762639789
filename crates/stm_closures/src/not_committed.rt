//! Why a transaction was not committed.
use std::error::Error;
use std::fmt;
use stm_hall::Refusal;

/// Why a transaction was not committed. Nothing of it was.
#[derive(Debug, Drop)]
pub enum NotCommitted<E> {
    /// The closure returned this error.
    Closure(E),
    /// A compare of each commit failed, and as many were sent as were allowed.
    AttemptsUsedUp,
    /// The closure left a transaction that is not its own: one of another store, or of another level.
    Exchanged,
    /// The store refused the commit: `TooManyOps`, `EmptyKey`, `LeaseNotFound`, `RevisionsUsedUp` or `OutOfMemory`.
    Refused(Refusal),
}

impl<E: fmt::Display + Drop> fmt::Display for NotCommitted<E> {
    fn fmt<W: fmt::Write>(&self, f: &mut fmt::Formatter<W>) -> fmt::Result {
        match self {
            NotCommitted::Closure(error) => fmt::Display::fmt(error, f),
            NotCommitted::AttemptsUsedUp => fmt::Display::fmt(&"AttemptsUsedUp", f),
            NotCommitted::Exchanged => fmt::Display::fmt(&"Exchanged", f),
            NotCommitted::Refused(refusal) => fmt::Display::fmt(refusal, f),
        }
    }
}

impl<E: fmt::Debug + fmt::Display + Drop> Error for NotCommitted<E> {}
