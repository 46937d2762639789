//! Reports of worlds in each form, the script that goes from a scenario to its report, and the check of a whole report.
//!
//! A report has a line for each event, each key that is present, each live lease and the end (`specs/Report.antt`). The forms that are lines of JSON are
//! written here: the lines themselves, and the same as objects, each element of a line under the name of its field (`specs/FormatFields.antt`). The forms for
//! people to read are `stm_formats`'.
//!
//! The files `whole_*` compare a text with the report that a script writes of its scenario, line by line. `stm_check` judges a report by the
//! replay of what it says; here it is compared with the report itself, so that also what was fetched, what failed, what ended a program and
//! what a watcher was given have to be as a script reports them.
#![tactic(auto)]

mod format;
mod format_fields;
mod format_script;
mod leases;
mod line_form;
mod report_text;
mod run_history;
mod run_script;
mod whole_comparing;
mod whole_judging;
mod whole_lines;

pub use format::Format;
pub use format_script::{render, revision_of, script_as};
pub use leases::live_leases;
pub use report_text::report;
pub use run_script::{ScriptFault, script};
pub use stm_check::{CheckFault, Checked, WrongCause, check};
pub use stm_devices::{DeviceFault, Sink, Source, Std, write_all};
pub use stm_entries::{Entry, LiveLease};
pub use stm_events::{
    CommittedRead, Event, EventRefusal, Expired, Fault, KeyRead, OpReply, TraceItem, Value,
};
pub use stm_formats::RunnerLabel;
pub use stm_history::{KeyState, Sequence, Text};
pub use stm_keys::Keys;
pub use stm_report_lines::{Report, ReportLine, read_report};
pub use stm_retry::{Denied, Reply, World};
pub use stm_texts::{BadInput, Cause, Opening, ReadError, Scenario, WorldEvent, read_scenario};
pub use whole_comparing::WholeChecked;
pub use whole_judging::check_whole;
pub use whole_lines::first_unlike;
