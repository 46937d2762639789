//! A hall that threads share: each of them runs transactions as closures, and holds the lock for one fetch or one commit at a time.
#![tactic(auto)]

mod running;
mod turns;

pub use running::run_on_threads;
pub use stm_closures::{
    Hall, Level, NotCommitted, Store, Transaction, TransactionError, atomically,
};
pub use turns::{SharedHall, Turns};
