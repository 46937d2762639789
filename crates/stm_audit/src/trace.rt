//! Traces.
use crate::commit::Commit;
use stm_events::Sequence;
use stm_txn::Checkpoint;

/// The commits of transactions, and what the store had before them.
#[derive(Debug, Drop)]
pub struct Trace {
    /// The store's revision when the trace begins, and its keys as they stood then. Without it, no key was present before the first commit.
    pub opening: Option<Checkpoint>,
    /// The commits, in the order in which the store took them, of which each has the store's revision after it.
    pub commits: Sequence<Commit>,
}
