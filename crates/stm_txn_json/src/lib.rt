//! Transactions read from JSON.
#![tactic(auto)]

mod compares;
mod operations;
mod read;
mod words;

pub use read::read_txn;
pub use stm_history::Text;
pub use stm_json::{BadInput, Cause, ReadError};
pub use stm_outcome::Txn;
