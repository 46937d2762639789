//! Watchers of the keys of a store.
//!
//! A watcher is notified of the events of its key, or of the keys of its range, of every revision from its start on, each
//! once and in order. It is lost where the store was compacted before it was notified of a revision: the next poll says so.
//! `specs/Pending.antt` says which events are pending, `specs/Calls.antt` what a call makes of the watchers that there
//! are.
#![tactic(auto)]

mod copies;
mod gather;
mod groups;
mod index;
mod page;
mod pending_revision;
mod ranges;
mod refusal;
mod shelf;
mod slots;
mod table;
mod touch;
mod watched;
mod watchers;

pub use pending_revision::PendingRevision;
pub use refusal::{NoWatcher, PollRefusal, WatchRefusal};
pub use stm_keys::{Event, Keys, Sequence, Text};
pub use watched::{Watched, Watcher};
pub use watchers::{Batch, Watchers};
