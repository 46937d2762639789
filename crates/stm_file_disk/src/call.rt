//! A call of the file system with its answer, as it is kept.

/// What was asked of the file system.
#[derive(Clone, Copy, Debug, PartialEq, Eq)]
pub enum Act {
    /// To open the file, after a sync of it and of its folder.
    Opened,
    /// To write bytes at an offset.
    Wrote,
    /// To cut the file to a length.
    Cut,
    /// To make the file last, and its name where that is new.
    Synced,
    /// To make the next file of bytes.
    WroteNext,
    /// To make the next file last.
    SyncedNext,
    /// To give the next file the name.
    Renamed,
}

/// A call with its answer.
#[derive(Debug, Drop)]
pub struct Call {
    /// What was asked for.
    pub act: Act,
    /// An offset or a length, 0 where there is none.
    pub at: usize,
    /// Whether the system said that it was done.
    pub is_done: bool,
    /// The bytes that were written or read.
    pub bytes: Vec<u8>,
}
