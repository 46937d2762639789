//! The command `threads`, over devices: a scenario's starts are run as jobs by several threads, and what that comes to is printed.
#![tactic(auto)]

mod faults;
mod messages;
mod running;
mod shown;
mod threading;

pub use faults::report_ends;
pub use running::{JobsFault, run_jobs};
pub use shown::Printing;
pub use stm_devices::{DeviceFault, Sink, Source, Std};
pub use stm_explain::KeptSource;
pub use stm_history::Sequence;
pub use stm_job::JobEnd;
pub use stm_workers::MOST_WORKERS;
pub use threading::{ThreadsOptions, threads_as_to, threads_to};
