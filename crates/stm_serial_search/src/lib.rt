//! A search through the serial orders of a world's runners: each program runs alone, one after another, among the others' events in their order.
//!
//! Where all runners commit at levels that compare their reads, a rule that every serial order keeps is kept by every schedule
//! (`stm_serial`). An order that breaks it is made in a world, step by step, and judged there, before it is reported.
#![tactic(auto)]

mod choices;
mod comparing;
mod finding;
mod following;
mod judging;
pub mod laws;
mod looking;
mod replaying;
mod whole;

pub use comparing::{are_orderly, programs_started};
pub use following::{Follower, Halt};
pub use judging::{Judged, go_through_orders, judge_by_orders};
pub use replaying::Break;
pub use stm_events::EventRefusal;
pub use stm_history::Sequence;
pub use stm_meaning::{End, Run};
pub use stm_program::Program;
pub use stm_retry::World;
pub use stm_schedules::Move;
pub use stm_world::WorldEvent;
