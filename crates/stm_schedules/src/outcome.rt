//! What a whole schedule comes to.
use stm_events::EventRefusal;
use stm_history::{Sequence, Text};
use stm_meaning::{Fault, Value};

/// How the run of a runner ended.
#[derive(Debug, PartialEq, Eq, Drop)]
pub enum RunnerEnd {
    /// It committed, with this output of its program.
    Committed { output: Sequence<Value> },
    /// The last commit that it might send failed, over this key.
    GaveUp { key: Text },
    /// Its program aborted, with this text.
    Aborted { text: Text },
    /// Its program was ended by a fault.
    Faulted { fault: Fault },
    /// The store refused its commit, or, as compacted, the fetch of a key at the base of its attempt.
    Ended { cause: EventRefusal },
}

/// A key that is present, with its value.
#[derive(Debug, PartialEq, Eq, Drop)]
pub struct KeyValue {
    /// The key.
    pub key: Text,
    /// Its value.
    pub value: Text,
}

/// What a whole schedule comes to.
#[derive(Debug, PartialEq, Eq, Drop)]
pub struct Outcome {
    /// The keys that are present, ascending by bytes, each with its value.
    pub state: Sequence<KeyValue>,
    /// How each runner ended, by the runners' numbers.
    pub ends: Sequence<RunnerEnd>,
}
