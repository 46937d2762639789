//! How a job ended, in words.

use std::alloc::AllocError;
use stm_workers::{JobEnd, JobRefusal, ReadAnswer};

fn report_refusal(reported: &mut String, refusal: &JobRefusal) -> Result<(), AllocError> {
    match refusal {
        JobRefusal::Store(refusal) => write!(reported, "refused {}; ", refusal.cause),
        _ => reported.push_str("refused; "),
    }
}

/// An abort, with the keys that the job had read, each at its revision.
fn report_abort(reported: &mut String, text: &str, reads: &[ReadAnswer]) -> Result<(), AllocError> {
    write!(reported, "abort {text}")?;
    for read in reads {
        write!(reported, " on {} of {}", read.key, read.of_rev)?;
    }
    reported.push_str("; ")
}

/// How a job ended: a commit with the index of its entry, and the store's revision after it.
pub(crate) fn report_end(reported: &mut String, end: &JobEnd) -> Result<(), AllocError> {
    match end {
        JobEnd::Committed { index, revision } => write!(reported, "commit {index} at {revision}; "),
        JobEnd::Aborted { text, reads } => report_abort(reported, text.as_str(), reads.as_slice()),
        JobEnd::Faulted { fault, reads } => write!(
            reported,
            "{} on {}; ",
            fault.name(),
            reads.len()
        ),
        JobEnd::Refused(refusal) => report_refusal(reported, refusal),
        JobEnd::GaveUp { key } => write!(reported, "gave up over {key}; "),
    }
}
