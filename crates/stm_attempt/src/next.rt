//! What an attempt answers.
use crate::ready::Ready;
use stm_history::{Sequence, Text};
use stm_meaning::Run;

/// Where an attempt stands once its program has gone as far as its answers take it.
#[derive(Debug, Drop)]
pub enum Next {
    /// The keys of the program's list have no answers yet: all are to be fetched in one transaction, and their answers supplied.
    FetchAll {
        /// The keys, in the list's order. There is at least one, none is empty, and none stands twice.
        keys: Sequence<Text>,
        /// The revision to read them at: 0, for the current one.
        at: u64,
    },
    /// The program wants a key that has no answer: it is to be fetched, and its answer supplied.
    Fetch {
        /// The key. It is not empty.
        key: Text,
        /// The revision to read it at, 0 for the current one: the base revision at the two serializable levels,
        /// which the first read fixes; 0 before that, and at the other levels.
        at: u64,
    },
    /// The program came to its end, and can be committed.
    Ready(Ready),
    /// The program ended by `abort`.
    Aborted(Run),
    /// The program ended by a fault.
    Faulted(Run),
}
