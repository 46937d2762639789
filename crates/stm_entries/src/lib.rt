//! The entries of a store's log: what changed a store, in the order of the steps, and their replay.
//!
//! A commit of a program is one entry, and so is a foreign transaction that changed something, a grant, a
//! renewal, a revocation and an expiry of a lease. Replayed in their order from an empty store, the entries
//! give its history and its live leases again. A map of the live leases follows what they do to these.
#![tactic(auto)]

mod entry;
pub mod laws;
mod live_leases;

pub use entry::Entry;
pub use live_leases::{LiveLease, begin_lease, end_lease, no_leases, renew_lease};
pub use stm_history::{ReadAnswer, Sequence, Text};
pub use stm_meaning::{TraceItem, Value};
pub use stm_program::{Level, Program};
pub use stm_txn::Txn;
