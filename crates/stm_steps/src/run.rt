//! What a run of a program gives.
use crate::fault::Fault;
use crate::key_set::KeySet;
use crate::trace_item::TraceItem;
use crate::value::Value;
use stm_history::{Sequence, Text};
use stm_program::Write;

/// How a run ended.
#[derive(Debug, PartialEq, Eq, Drop)]
pub enum End {
    /// After its last statement.
    Done,
    /// By `abort`, with its text.
    Aborted(Text),
    /// By a fault.
    Faulted(Fault),
}

/// A run of a program that came to its end.
#[derive(Debug, Drop)]
pub struct Run {
    /// How it ended.
    pub end: End,
    /// What it emitted, in order.
    pub output: Sequence<Value>,
    /// What each `get` and `rev` gave, in order.
    pub trace: Sequence<TraceItem>,
    /// Each write that it made, in order.
    pub writes: Sequence<Write>,
    /// The keys that it looked up, in the order of their first look-up.
    pub reads: KeySet,
}

/// What a run on recorded answers gives.
#[derive(Debug, Drop)]
pub enum Answered {
    /// The run came to its end on the answers.
    Ended(Run),
    /// It stopped at a key that has no answer, with what it saw until then.
    Wants {
        /// The key.
        key: Text,
        /// What each `get` and `rev` gave until then, in order.
        trace: Sequence<TraceItem>,
    },
}
