//! Jobs: what one is, how threads draw their numbers, how one ends, and what a run of jobs comes to.
//!
//! These are types that the workers and the texts of jobs have in common. They stand below both, so neither waits for the other.
#![tactic(auto)]

mod drawing;
mod gathered;
mod job;
mod job_end;
mod lasting_refusal;
pub mod laws;

pub use drawing::{JobSeat, JobTable, Size, View};
pub use gathered::{FaultCause, Gathered, RunFault};
pub use job::Job;
pub use job_end::{JobEnd, JobRefusal};
pub use lasting_refusal::LastingRefusal;
pub use stm_txn::Refusal;
