//! Transactions over a key store, its leases and its watchers.
//!
//! `Store` has the behaviour of a single-member etcd v3: one call is one step, and a refused call changes
//! nothing but where it says so. What a transaction is, and what it comes to, is defined in `stm_outcome`, whose
//! types are passed on.
#![tactic(auto)]

mod attach;
mod branch;
mod changes;
pub mod laws;
mod lease_calls;
mod refuse;
mod refused;
mod restored;
mod store;
mod watch_calls;
mod writes;

pub use restored::{Checkpoint, KeptLease};
pub use stm_history::ReadAnswer;
pub use stm_keys::{Change, Event, HIGHEST_REVISION, KeyState, Keys, Sequence, Text};
pub use stm_outcome::{
    AdvanceRefused, Compare, Expired, FailedCompare, MOST_OPERATIONS, Op, OpAnswer, Order, Refusal,
    ShortList, Target, Txn, TxnAnswer,
};
pub use stm_watch::{Batch, PendingRevision, Watched};
pub use store::Store;
