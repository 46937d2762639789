//! Scenarios of jobs: which scenario is one, the store that its other events leave, and what is printed of a run of its jobs, or of many.
//!
//! A scenario of jobs has the form of any scenario. Each start is a job, in their order; the events of the store are applied before the
//! jobs are run, wherever they stand; another event has no place in it. The runs themselves are `stm_threading`'s.
#![tactic(auto)]

mod accepting;
mod conflicts;
mod opening;
mod outcome;
mod printing;
mod store_call;
mod tally;

pub use accepting::{JobScenario, accept};
pub use opening::open_store;
pub use outcome::front_of;
pub use printing::lines;
pub use stm_hall::Hall;
pub use stm_history::Sequence;
pub use stm_job::{Gathered, Job};
pub use stm_json::{BadInput, Cause, ReadError};
pub use stm_texts::{Opening, Scenario};
pub use stm_txn::Store;
pub use store_call::StoreCall;
pub use tally::{count_one, tally_text};
