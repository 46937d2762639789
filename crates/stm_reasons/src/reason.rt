//! What a reason says.
use stm_history::Text;

/// How the commit ended that a reason is about.
#[derive(Clone, Copy, Debug, PartialEq, Eq)]
pub enum Ending {
    /// A compare of it failed, and the next attempt begins.
    Conflict,
    /// A compare of it failed, and it was the last that the run may send.
    GaveUp,
    /// It was made, at ReadCommitted, though a key that it was made on was no longer as it had been read.
    Stale,
}

/// What an event did to a key.
#[derive(Clone, Copy, Debug, PartialEq, Eq)]
pub enum Deed {
    /// It put the key.
    Put,
    /// It deleted the key.
    Deleted,
    /// It ended this lease, and with it the key.
    Ended { lease: u64 },
}

/// The change of a key that a commit was too late for.
#[derive(Clone, Copy, Debug, PartialEq, Eq)]
pub struct Cause {
    /// The number of the event that made it.
    pub event: u64,
    /// Its revision.
    pub revision: u64,
    /// What it did.
    pub deed: Deed,
}

/// Why a commit failed, or one key on which one went through that no longer was as it had been read.
#[derive(Debug, PartialEq, Eq, Drop)]
pub struct Reason {
    /// The number of the event that was the commit, from 1.
    pub event: u64,
    /// The runner whose commit it was.
    pub runner: u64,
    /// How it ended.
    pub ending: Ending,
    /// The key.
    pub key: Text,
    /// The modification revision at which the runner saw it: 0 where it was absent.
    pub seen: u64,
    /// The number of the event at which the runner's attempt read it; none where that was with an earlier commit that failed, or
    /// where the key was only written.
    pub read: Option<u64>,
    /// The first change of the key since it was seen; none where the revisions since then are no longer kept.
    pub cause: Option<Cause>,
}
