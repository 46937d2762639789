//! Commits of a trace.
use stm_events::{CommittedRead, Level, Sequence};
use stm_program::Write;

/// A commit of a trace: what a transaction read and wrote, at which level, and which revision the store had after it.
#[derive(Debug, Drop)]
pub struct Commit {
    /// The level that it was committed at.
    pub level: Level,
    /// The store's revision after it.
    pub revision: u64,
    /// What it read, in the order of the reads.
    pub reads: Sequence<CommittedRead>,
    /// What it wrote, in the order of the writes.
    pub writes: Sequence<Write>,
}
