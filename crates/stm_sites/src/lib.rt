//! The evaluator of programs: the run of one over a look-up, and where a run stops: at which node, and on which values.
#![tactic(auto)]

mod answering;
mod conditions;
mod expressions;
mod finding;
mod halt;
pub mod laws;
mod site;
mod statements;

pub use answering::run_answered;
pub use finding::{FoundFault, find_fault};
pub use site::{Node, Site};
pub use stm_program::{Operator, Program};
pub use stm_steps::{Fault, Lookup, Sequence, Value};
