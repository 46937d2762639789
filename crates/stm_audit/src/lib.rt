//! The audit of a trace: whether each commit of transactions that ran elsewhere is what its level promises, and which anomalies there are.
//!
//! `specs/Audit.antt` says what an audit finds, by the history that the commits' writes make; `specs/Reading.antt` how a trace is spelled.
#![tactic(auto)]

mod anomaly;
mod auditing;
mod command;
mod commit;
mod explaining;
mod finding;
pub mod laws;
mod lines;
mod older;
mod parts;
mod reading;
mod reads;
mod stale;
mod store_after;
mod trace;
mod words;

pub use anomaly::Anomaly;
pub use auditing::{Audited, audit};
pub use command::audit_to;
pub use commit::Commit;
pub use explaining::explain_trace;
pub use finding::Finding;
pub use older::explain_older;
pub use reading::read_trace;
pub use stm_devices::{Sink, Source, Std};
pub use stm_events::{CommittedRead, KeyState, Level, Sequence, Text};
pub use stm_json::{BadInput, Cause, ReadError};
pub use stm_program::Write;
pub use stm_txn::{Checkpoint, KeptLease};
pub use trace::Trace;
pub use words::audit_in_words;
