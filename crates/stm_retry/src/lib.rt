//! The world: runners of programs over one store, and everything else that a store is asked for, one event at
//! a time.
//!
//! A runner's step evaluates its program on the answers that it has recorded, and then makes at most one
//! transaction: the fetch of its program's list or of the key that it wants, or its commit.
#![tactic(auto)]

mod ahead;
mod alike;
mod alone;
mod copies;
mod kept_world;
pub mod laws;
mod opened;
mod runner;
mod runner_steps;
mod shared_runner;
mod shared_world;
mod slots;
mod step_outcome;
mod store_calls;
mod watch_calls;
mod world;

pub use alone::{KeysNow, run_now};
pub use shared_world::SharedWorld;
pub use stm_entries::Entry;
pub use stm_events::{
    CommittedRead, Denied, Event, EventRefusal, KeyRead, OpReply, Reply, WorldEvent,
};
pub use stm_history::{ReadAnswer, Sequence, Text};
pub use stm_meaning::{Fault, Run, State, TraceItem, Value};
pub use stm_program::{Level, Program};
pub use stm_txn::{Expired, Refusal as StoreRefusal, Store, Txn, TxnAnswer};
pub use world::{RunStop, World, is_out_of_memory};
