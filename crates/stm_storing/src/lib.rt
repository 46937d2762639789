//! What the program does with a world that lasts: it goes on with a scenario, a program, or jobs that several threads run, shows what the store has, had, and
//! what has happened in it, and says whether a file is whole.
//!
//! A report is written only once its scenario lasts, and what a crash leaves opens to the world before the scenario or to the one after it (`stm_lasting`).
#![tactic(auto)]

mod changes_text;
mod checkpoint_text;
mod compacting;
mod ended_leases;
mod fault;
mod input;
mod jobs;
mod jobs_input;
mod likeness;
mod past;
mod running;
mod scripting;
mod showing;

pub use compacting::compact_kept;
pub use fault::StoreFault;
pub use input::{InputFault, read_input, read_program};
pub use jobs::threads_kept;
pub use jobs_input::{JobsAsked, read_jobs};
pub use past::{show_at, show_since};
pub use running::{Manner, run_anew, run_kept};
pub use scripting::script_kept;
pub use showing::{Checked, check_kept, show_kept};
pub use stm_job::JobEnd;
pub use stm_lasting::{Disk, RecordFile};
pub use stm_program::{Level, Program};
pub use stm_report::{Format, Scenario, Sink, World};
pub use stm_txn::{HIGHEST_REVISION, Text, Watched};
