//! Reports: their lines written and read.
//!
//! A report is lines of JSON. `specs/LineData.antt` has the data of each line, and both writing and reading are said by them. The files
//! `written_*` write. No line has a number that is not whole.
#![tactic(auto)]

mod arrays;
mod event_lines;
pub mod laws;
mod lines;
mod parts;
mod readable;
mod reading;
mod text;
mod words;
mod written_items;
mod written_lines;

pub use arrays::{parts_json, worded_json};
pub use reading::read_report;
pub use stm_events::{
    CommittedRead, Denied, Event, EventRefusal, Expired, Fault, KeyRead, OpReply, Reply, Report,
    ReportLine, TraceItem, Value,
};
pub use stm_history::{KeyState, Sequence, Text};
pub use stm_json::{BadInput, Cause, MOST_BYTES, ReadError};
pub use text::push_line;
pub use written_items::{Spelled, array_json};
pub use written_lines::{end_json, event_json, key_json, lease_json};
