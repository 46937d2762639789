//! A search through places, layer by layer, that goes on once from places that are alike.
//!
//! A layer has the places after one number of moves, of alike ones the first in the order of the schedules to them. So the first place of the
//! layers where a rule is not kept is where the first schedule leads to that breaks it: no shorter one does, and none as long that stands
//! before it; the length of the longest schedule is exact; and what whole schedules come to is what the layers show.
//!
//! Places of different layers are not compared, and those of layers before the last two are not kept.
#![tactic(auto)]

mod breaks;
mod budget;
mod halt;
pub mod laws;
mod layer;
mod reached;
mod search;
mod seen;
mod system;
mod visited;

pub use budget::{Budget, Nobody, Observer};
pub use halt::Halt;
pub use layer::{can_go_on, next_layer, opening_layer};
pub use reached::Reached;
pub use search::find_first_bad;
pub use stm_history::Sequence;
pub use system::System;
pub use visited::Visited;
