//! The history of a key-value store: texts, key states and changes.
//!
//! `specs/` has the definitions that every crate above speaks of: a history, the key at a revision,
//! the state at a revision, and the laws about them.
#![tactic(auto)]

mod change;
mod key_state;
pub mod laws;
mod revisions;
mod sequence;
mod text;

pub use change::{Change, find_change};
pub use key_state::{
    KeyState, ReadAnswer, are_same_states, copy_found, found_mod_rev, mod_rev_of, value_of,
};
pub use revisions::{HIGHEST_NUMBER, HIGHEST_REVISION};
pub use sequence::Sequence;
pub use text::Text;
