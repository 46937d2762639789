//! Every interleaving of a scenario: which moves there are at a place, what schedules of them come to, and what it means that all of
//! them keep a rule.
//!
//! Here are the types and the definitions, over the world's step alone, and their laws (`laws`). Nothing here says how schedules are
//! gone through.
#![tactic(auto)]

pub mod laws;
mod moves;
mod outcome;

pub use moves::Move;
pub use outcome::{KeyValue, Outcome, RunnerEnd};
pub use stm_events::EventRefusal;
pub use stm_history::{Sequence, Text};
pub use stm_meaning::{Fault, Value};
pub use stm_program::{Level, Program};
pub use stm_world::WorldEvent;
