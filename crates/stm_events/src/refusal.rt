//! Why an event is refused.
ghost use Rattle.std.specs.Prelude.{◌≡◌, ◌↔◌, IsTrue};
ghost use Rattle.stm_events.specs.declared.refusal.EventRefusal.TheVariants.{OutOfMemory};
ghost use Rattle.stm_events.specs.Names.{refusal_name};
ghost use Rattle.stm_events.specs.Replies.{event_refusal};

use std::error::Error;
use std::fmt;
use stm_history::Sequence;
use stm_txn::{Expired, Refusal as StoreRefusal};

/// Why an event was refused, or a run ended by the store: each cause that a report has a name for. The first eight are the faults that end a
/// program, too. A world gives only causes of its store, `BadLimit` and `NoRunner` (`stm_world::laws::causes_are_of_the_event`); a report that is read
/// may name any.
///
/// `Display` gives the refusal's name, as the report spells it.
#[derive(Clone, Copy, Debug, PartialEq, Eq)]
pub enum EventRefusal {
    /// A text where a number is wanted, or the reverse, or mixed kinds compared.
    Kind,
    /// A result is out of 64 bits with a sign.
    Overflow,
    /// A division or a remainder by 0.
    ZeroDivisor,
    /// A text was taken for a number and is none.
    NotANumber,
    /// A count is above the limit of its loop.
    LoopTooLong,
    /// A run has too many turns.
    TurnLimit,
    /// A joined text is too long.
    TextTooLong,
    /// An empty key, of a program or of a call.
    EmptyKey,
    /// An allocation failed.
    OutOfMemory,
    /// A text is not in its grammar.
    BadProgram,
    /// A revision is above the store's counter.
    FutureRevision,
    /// A revision is below the store's floor, or at it where it was to be made the floor.
    Compacted,
    /// Something was to change at the highest revision.
    RevisionsUsedUp,
    /// The lease is live already.
    LeaseExists,
    /// A time to live is out of range.
    TtlOutOfRange,
    /// A lease id is out of range.
    LeaseIdOutOfRange,
    /// The lease is not live.
    LeaseNotFound,
    /// There is no such watcher, or it was cancelled.
    NoWatcher,
    /// A transaction's list is too long.
    TooManyOps,
    /// A branch puts a key twice, or puts and deletes it.
    DuplicateKey,
    /// A moment is below the store's.
    TimeGoesBack,
    /// A run was to be started with 0 commits.
    BadLimit,
    /// There is no such runner, or it has ended.
    NoRunner,
    /// The store's counter is below what the caller has seen.
    Behind,
    /// A key has the modification revision that was read, and another value.
    Unvouched,
}

impl EventRefusal {
    /// The refusal of an event whose call the store refused for this cause.
    pub fn of_store(cause: StoreRefusal) -> EventRefusal
        ensures { result ≡ event_refusal cause }
    {
        match cause {
            StoreRefusal::OutOfMemory => EventRefusal::OutOfMemory,
            StoreRefusal::EmptyKey => EventRefusal::EmptyKey,
            StoreRefusal::FutureRevision => EventRefusal::FutureRevision,
            StoreRefusal::Compacted => EventRefusal::Compacted,
            StoreRefusal::RevisionsUsedUp => EventRefusal::RevisionsUsedUp,
            StoreRefusal::LeaseExists => EventRefusal::LeaseExists,
            StoreRefusal::TtlOutOfRange => EventRefusal::TtlOutOfRange,
            StoreRefusal::LeaseIdOutOfRange => EventRefusal::LeaseIdOutOfRange,
            StoreRefusal::LeaseNotFound => EventRefusal::LeaseNotFound,
            StoreRefusal::NoWatcher => EventRefusal::NoWatcher,
            StoreRefusal::TooManyOps => EventRefusal::TooManyOps,
            StoreRefusal::DuplicateKey => EventRefusal::DuplicateKey,
            StoreRefusal::TimeGoesBack => EventRefusal::TimeGoesBack,
        }
    }

    /// The name of the refusal, as the report spells it.
    pub fn name(self) -> &'static str
        ensures { result.now ≡ refusal_name self }
    {
        match self {
            EventRefusal::Kind => "Kind",
            EventRefusal::Overflow => "Overflow",
            EventRefusal::ZeroDivisor => "ZeroDivisor",
            EventRefusal::NotANumber => "NotANumber",
            EventRefusal::LoopTooLong => "LoopTooLong",
            EventRefusal::TurnLimit => "TurnLimit",
            EventRefusal::TextTooLong => "TextTooLong",
            EventRefusal::EmptyKey => "EmptyKey",
            EventRefusal::OutOfMemory => "OutOfMemory",
            EventRefusal::BadProgram => "BadProgram",
            EventRefusal::FutureRevision => "FutureRevision",
            EventRefusal::Compacted => "Compacted",
            EventRefusal::RevisionsUsedUp => "RevisionsUsedUp",
            EventRefusal::LeaseExists => "LeaseExists",
            EventRefusal::TtlOutOfRange => "TtlOutOfRange",
            EventRefusal::LeaseIdOutOfRange => "LeaseIdOutOfRange",
            EventRefusal::LeaseNotFound => "LeaseNotFound",
            EventRefusal::NoWatcher => "NoWatcher",
            EventRefusal::TooManyOps => "TooManyOps",
            EventRefusal::DuplicateKey => "DuplicateKey",
            EventRefusal::TimeGoesBack => "TimeGoesBack",
            EventRefusal::BadLimit => "BadLimit",
            EventRefusal::NoRunner => "NoRunner",
            EventRefusal::Behind => "Behind",
            EventRefusal::Unvouched => "Unvouched",
        }
    }
}

impl fmt::Display for EventRefusal {
    ghost use Rattle.std.specs.Prelude.{Some};
    ghost use Rattle.stm_events.specs.Names.{refusal_name};

    ghost output = { λ refusal. Some (refusal_name refusal) };

    fn fmt<W: fmt::Write>(&self, f: &mut fmt::Formatter<W>) -> fmt::Result {
        fmt::Display::fmt(&self.name(), f)
    }
}

impl Error for EventRefusal {}

/// A refused event.
#[derive(Debug, PartialEq, Eq, Drop)]
pub struct Denied {
    /// Why it was refused.
    pub cause: EventRefusal,
    /// The leases that had expired before the refusal, in their order: none for every event but an advance.
    pub expired: Sequence<Expired>,
}

impl Denied {
    /// Whether an allocation failed.
    pub fn is_out_of_memory(&self) -> bool
        ensures { IsTrue result ↔ self.now.cause ≡ OutOfMemory }
    {
        self.cause == EventRefusal::OutOfMemory
    }
}
