//! Worlds that last: a world is kept as the scenarios that it has run, each a record of a file, and comes back by running them again.
//!
//! `open` gives the world that a file leads to, also after a crash, and cuts off the file's torn end. `go_on` runs a scenario over it, and makes it last, all
//! of it or, after a crash, nothing of it: only then are its replies given. `compact` puts a file of one record in the place of all, a checkpoint of the world.
#![tactic(auto)]

mod checkpoint_text;
mod compacting;
mod fault;
mod keeping;
pub mod laws;
mod opening;
mod replay;

pub use compacting::{compact, world_of_checkpoint};
pub use fault::{KeepFault, KeptFault};
pub use keeping::go_on;
pub use opening::{Kept, open};
pub use replay::empty_world;
pub use stm_records::{Disk, RecordFile};
pub use stm_retry::World;
pub use stm_texts::Scenario;
