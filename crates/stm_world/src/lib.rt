//! The world: runners of programs over one store, and everything else that a store is asked for, one event at
//! a time.
//!
//! Here are the world's step as a function of the event, what makes a log of events and replies right, and the laws of both
//! (`laws`), the headline among them. Events and replies are those of `stm_events`.
#![tactic(auto)]

pub mod laws;

pub use stm_entries::Entry;
pub use stm_events::{
    CommittedRead, Denied, Event, EventRefusal, Expired, Fault, KeyRead, Level, OpReply, Program,
    Reply, Sequence, StoreRefusal, Text, TraceItem, Txn, Value, WorldEvent,
};
