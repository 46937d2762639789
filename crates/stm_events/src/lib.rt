//! The events of a world, the replies to them, and the lines of a report, as values.
//!
//! They stand below the world's step and its laws, so that what reads and writes them needs neither. A reply has what its line has, and nothing
//! else: the same value is what a world replies, what is written, what is read, and what a check compares.
#![tactic(auto)]

mod event;
mod line;
mod op_replies;
mod refusal;
mod reply;
mod same;

pub use event::WorldEvent;
pub use line::{Report, ReportLine};
pub use op_replies::is_txn_reply;
pub use refusal::{Denied, EventRefusal};
pub use reply::{CommittedRead, KeyRead, OpReply, Reply};
pub use same::{are_same_lines, are_same_outcomes};
pub use stm_history::{KeyState, Sequence, Text};
pub use stm_keys::Event;
pub use stm_program::{Level, Program};
pub use stm_steps::{Fault, TraceItem, Value, are_same_traces, are_same_values};
pub use stm_txn::{Expired, OpAnswer, Refusal as StoreRefusal, Txn, TxnAnswer};
