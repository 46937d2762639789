//! The keys of a store, at every revision.
//!
//! `Keys` is a history: the revisions that are kept, each put with its key's full state, beside a chain
//! for each key, of what it was before these revisions and of the numbers of those that changed it.
#![tactic(auto)]

mod chain;
mod chains;
mod copies;
mod event;
mod events;
mod hints;
mod keys;
pub mod laws;
mod refusal;
mod restored;
mod run;
mod runs;
mod shared_text;

pub use event::Event;
pub use keys::Keys;
pub use refusal::{ApplyRefusal, ReadRefusal};
pub use shared_text::SharedText;
pub use stm_history::{Change, HIGHEST_REVISION, KeyState, Sequence, Text};
