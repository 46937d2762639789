//! Programs run as jobs by several threads on one store under one lock.
//!
//! The store is a `Hall` under one lock, beside a count of the commits that it took. Each worker draws a job and brings it to its end. It evaluates
//! the job without the lock, and holds the lock for one fetch or one commit at a time. After a commit that failed the job is attempted again, until
//! it has sent as many commits as it may. Each job is drawn once. What nobody can know before all threads have ended is looked at then, by the audit.
#![tactic(auto)]

mod access;
mod attempts;
mod auditing;
mod employing;
mod gate;
pub mod laws;
mod locked;
mod placing;
mod run;
mod shared;
mod start_point;
mod stop;
mod thread_fault;
mod worker;

pub use auditing::audit;
pub use gate::{Gate, NoGate};
pub use run::{MOST_WORKERS, run_workers};
pub use start_point::StartPoint;
pub use stm_hall::{
    AdvanceRefused, CommitRefusal, Entry, Expired, FetchRefusal, Hall, Level, Program, ReadAnswer,
    Ready, Refusal, Sequence, State, Store, Text, Txn, TxnAnswer, Verdict,
};
pub use stm_job::{
    FaultCause, Gathered, Job, JobEnd, JobRefusal, JobSeat, JobTable, LastingRefusal, RunFault,
};
pub use stm_meaning::Fault;
