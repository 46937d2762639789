//! What a row of a report says.
use stm_history::Sequence;

/// The column of a row.
#[derive(Clone, Copy, Debug, PartialEq, Eq)]
pub enum Lane {
    /// That of the store, and of everything that no runner does.
    Store,
    /// That of the runner with this number.
    Runner(u64),
}

/// What came of an event.
#[derive(Clone, Copy, Debug, PartialEq, Eq)]
pub enum Mark {
    /// A commit of a runner.
    Committed,
    /// A commit that failed, a run that ended without one, or a refused event.
    Failed,
    /// Anything else.
    Plain,
}

/// A row: one event and the reply to it.
#[derive(Debug, Drop)]
pub struct Row {
    /// The number of the event, from 1.
    pub number: u64,
    /// Its column.
    pub lane: Lane,
    /// What came of it.
    pub mark: Mark,
    /// What it says, as UTF-8 without control characters.
    pub words: Sequence<u8>,
}
