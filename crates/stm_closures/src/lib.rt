//! Transactions as closures: software transactional memory for callers in Rattle.
//!
//! `atomically` calls a closure at a transaction that has just begun, and commits what it read and wrote. What has a store to fetch from and to
//! commit to is a `Fetch` and a `Commit`: a `Hall` is one, and a `Store` of a single user. (The Go package `clientv3/concurrency`, "STM": `NewSTM` with a function.)
#![tactic(auto)]

mod attempts;
mod hall_commit;
mod not_committed;
mod over_hall;
mod over_store;
mod rereading;
mod serving;
mod store_access;
mod store_commit;
mod transaction;
mod transaction_error;

pub use attempts::atomically;
pub use not_committed::NotCommitted;
pub use rereading::read_all_again;
pub use stm_attempt::{ReadSet, Write, WriteBuffer};
pub use stm_hall::{FetchRefusal, Hall, Level, ReadAnswer, Refusal, Store, Text};
pub use store_access::{Commit, CommitOutcome, Fetch};
pub use store_commit::are_shown;
pub use transaction::Transaction;
pub use transaction_error::TransactionError;
