//! What is said, for people, of runs that came to a fault: where in the scenario's text the node stands at which a run stopped, and on which values.
//!
//! Where a run stops is found by evaluating its program once more on what it had read (`stm_sites`). A scenario is run once more for that, and
//! what each runner read is followed. Nothing here decides anything: a report stands already.
#![tactic(auto)]

mod absent;
mod events;
mod following;
mod jobs;
pub mod laws;
mod leases;
mod lines;
mod places;
mod reads;
mod reasons;
mod rules;
mod runs;
mod said;
mod scripts;

pub use jobs::{FaultedJob, jobs_explained};
pub use leases::leases_explained;
pub use rules::{fault_on, rule_explained, rule_reason};
pub use said::said_of;
pub use scripts::{Named, faults_explained};
pub use stm_retry::State;
pub use stm_sites::{
    Fault, FoundFault, Lookup, Node, Operator, Program, Sequence, Site, Value, find_fault,
};
