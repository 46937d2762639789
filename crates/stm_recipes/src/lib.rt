//! Recipes: programs that people write on a store of keys, values and leases, and the readers of their keys.
//!
//! Each recipe is a program as data: a caller may run it alone, or give it to a world or to threads. What it does alone is a law.
#![tactic(auto)]

mod accounts;
mod counters;
pub mod laws;
mod names;
mod nodes;
mod numbers;
mod queues;
mod readers;
mod slots;

pub use accounts::{deposit, transfer};
pub use names::MAX_NAME;
pub use queues::{dequeue, enqueue};
pub use readers::{held, queue_items, total};
pub use slots::{release_slot, reserve_slot};
pub use stm_meaning::{State, StateEntry};
pub use stm_program::Program;
