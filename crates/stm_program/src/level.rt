//! The isolation levels.
ghost use Rattle.std.specs.Prelude.{◌≡◌, ◌↔◌, IsTrue};
ghost use Rattle.stm_program.specs.Levels.{is_comparing, is_serializable};

/// The isolation level that a run of a program is committed at, from the one that compares most to the one that compares nothing.
///
/// (The levels of `clientv3/concurrency`, "STM", by their names there.)
#[derive(Clone, Copy, Debug, PartialEq, Eq)]
pub enum Level {
    /// The commit compares the keys that were read and those that are written; all reads are of one revision.
    SerializableSnapshot,
    /// The commit compares the keys that were read; all reads are of one revision.
    Serializable,
    /// The commit compares the keys that were read; each read is of the moment at which it was made.
    RepeatableReads,
    /// The commit compares nothing; each read is of the moment at which it was made.
    ReadCommitted,
}

impl Level {
    /// Whether it is the same level as another one. `==` answers this.
    pub fn is_same(self, other: Level) -> bool
        ensures { IsTrue result ↔ self ≡ other }
    {
        self == other
    }

    /// Whether a commit at this level compares what was read.
    pub fn is_comparing(self) -> bool
        ensures { result ≡ is_comparing self }
    {
        match self {
            Level::SerializableSnapshot => true,
            Level::Serializable => true,
            Level::RepeatableReads => true,
            Level::ReadCommitted => false,
        }
    }

    /// Whether all reads of an attempt at this level are of one revision.
    pub fn is_serializable(self) -> bool
        ensures { result ≡ is_serializable self }
    {
        match self {
            Level::SerializableSnapshot => true,
            Level::Serializable => true,
            Level::RepeatableReads => false,
            Level::ReadCommitted => false,
        }
    }
}
