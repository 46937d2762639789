//! A store or a world of a single user, in one call: a program run to its end in a world or over a store, and a world as transactions as closures use it.
#![tactic(auto)]

mod at_once;
mod driving;
mod world_client;
mod world_commit;

pub use at_once::run_at_once;
pub use driving::run_to_end;
pub use stm_closures::{NotCommitted, TransactionError, atomically};
pub use stm_meaning::{End, Run};
pub use stm_retry::{EventRefusal, Level, Program, Reply, Store, StoreRefusal, World};
pub use world_client::WorldClient;
