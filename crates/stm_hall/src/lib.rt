//! The hall: a journal that many callers commit to, one call after another, such as threads by turns.
//!
//! A hall is what a run on several threads keeps under its one lock. A caller evaluates its program by itself; it
//! comes to the hall for the answer to a fetch, and with an attempt that is ready to commit. The hall keeps what
//! changed its store as entries, which replay to the store as it is now.
#![tactic(auto)]

mod changed;
mod hall;
pub mod laws;
mod showing;

pub use hall::Hall;
pub use stm_attempt::Ready;
pub use stm_entries::Entry;
pub use stm_history::{ReadAnswer, Sequence, Text};
pub use stm_journal::{
    CommitRefusal, FetchRefusal, Prepared, Verdict, prepare, take_reads, txn_of_reads,
};
pub use stm_meaning::{State, TraceItem, Value};
pub use stm_program::{Level, Program};
pub use stm_txn::{AdvanceRefused, Expired, Refusal, Store, Txn, TxnAnswer};
