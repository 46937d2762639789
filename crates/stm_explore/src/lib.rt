//! A search that judges every interleaving: whether a rule is kept after each schedule of a world's runners and of what others do, and
//! what whole schedules come to.
//!
//! Places are gone through by the number of moves to them. Of the places of one number from which the steps of runners can see the same, one is
//! gone on from: the first in the order of the schedules to them. So the first schedule that breaks a rule, the length of the longest one and
//! what whole ones come to are those of all schedules. The worlds of two numbers are kept at a time.
//!
//! Meanwhile an observer is notified of how far the search is.
#![tactic(auto)]

mod alike;
mod asking;
mod collecting;
mod ends;
mod exploring;
mod finding;
mod found;
mod gathering;
mod judging;
mod keeping;
mod moving;
mod onlooking;
mod orders;
mod places;
mod replaying;
mod reporting;
mod revisions;
mod shared_ends;
mod sharing;
mod shown;
mod turns;
mod waiting;
mod waits;

pub use asking::{When, laid};
pub use ends::ends_reported;
pub use exploring::{Explored, explore};
pub use finding::{Outcomes, find_outcomes};
pub use onlooking::Onlooker;
pub use orders::{SerialAnswer, find_anomaly};
pub use replaying::outcome_after;
pub use stm_history::Sequence;
pub use stm_meaning::End;
pub use stm_program::Program;
pub use stm_retry::World;
pub use stm_schedules::{KeyValue, Move, Outcome, RunnerEnd};
pub use stm_visited::{Budget, Nobody, Observer};
pub use stm_world::WorldEvent;
pub use waiting::explore_waiting;
pub use waits::Wait;
