//! The journal: a store with the entries of what changed it. Fetches, commits, transactions of other clients and leases go through it, and each that changes
//! something is entered by one function.
//!
//! Beside it what those who keep such a store have in common: reads of a store, and its present keys and its state.
#![tactic(auto)]

mod answers;
mod causes;
mod commit_entry;
mod committing;
mod conflicts;
mod copying;
mod entered_calls;
mod failing;
mod faults;
mod fetching;
mod journal;
pub mod laws;
mod prepared;
mod present;
mod refusal;
mod rereads;
mod state;
mod still;
mod verdict;
mod vouching;

pub use answers::take_reads;
pub use fetching::{read, txn_of_reads};
pub use journal::Journal;
pub use prepared::{Prepared, prepare};
pub use present::present_keys;
pub use refusal::{CommitRefusal, FetchRefusal};
pub use state::state_of;
pub use stm_attempt::Ready;
pub use stm_entries::Entry;
pub use stm_history::{ReadAnswer, Sequence, Text};
pub use stm_keys::Keys;
pub use stm_meaning::{State, TraceItem, Value};
pub use stm_program::{Level, Program};
pub use stm_txn::{
    AdvanceRefused, Batch, Expired, OpAnswer, Refusal, ShortList, Store, Txn, TxnAnswer,
};
pub use verdict::Verdict;
