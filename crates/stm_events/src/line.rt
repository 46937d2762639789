//! The lines of a report.
use crate::refusal::Denied;
use crate::reply::Reply;
use stm_history::{KeyState, Sequence, Text};

/// One line of a report. Revisions are those of the store's counter; moments and times to live are in whole seconds.
#[derive(Debug, PartialEq, Eq, Drop)]
pub enum ReportLine {
    /// The reply to an event, or why it was refused. Events are numbered from 1.
    Event {
        number: u64,
        reply: Result<Reply, Denied>,
    },
    /// A key that is present at the end.
    Key {
        key: Text,
        state: KeyState,
    },
    /// A lease that is live at the end: its time to live, and the moment of its grant or last renewal.
    Lease {
        id: u64,
        ttl: u64,
        renewed: u64,
    },
    /// The last line: the store's revision, and how many entries were made.
    End {
        revision: u64,
        entries: u64,
    },
}

/// What a report says, line by line.
#[derive(Debug, Drop)]
pub struct Report {
    /// The lines in order.
    pub lines: Sequence<ReportLine>,
}
