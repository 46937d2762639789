//! Worlds that are alike: what their steps can see is the same.
//!
//! Which parts of a world its steps can see, as a definition with its laws; and, as functions, whether answers and entries are the same, and leave the same
//! leases.
#![tactic(auto)]

mod answers;
mod entries;
pub mod laws;
mod leases;
mod transactions;

pub use answers::{are_same_answers, are_seen_alike};
pub use entries::{are_same_entries, is_same_entry};
pub use leases::leave_same_leases;
