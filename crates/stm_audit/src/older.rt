//! What is said of a trace that knows keys from before it, and does not say with which it begins.

use crate::auditing::{Audited, audit, leaves_a_key, opened};
use crate::commit::Commit;
use crate::reading::read_trace;
use std::alloc::{AllocError, Global};

/// Whether a commit has read a key as it was put by a revision.
fn has_older(revision: u64, commit: &Commit) -> bool {
    let mut reads = commit.reads.as_slice().iter();
    reads.any(|read| 0 < read.mod_rev && read.mod_rev <= revision)
}

/// Whether a commit writes something, and only deletes.
fn only_deletes(alloc: Global, commit: &Commit) -> Result<bool, AllocError> {
    let writes = commit.writes.as_slice();
    Ok(!writes.is_empty() && !leaves_a_key(alloc, writes)?)
}

/// The number of the commit whose revision is off, where it only deletes, and its revision is the next one: it may have deleted keys from before the trace.
fn off_by_deleting(
    alloc: Global,
    commits: &[Commit],
    off: Option<u64>,
) -> Result<Option<u64>, AllocError> {
    let Some(number) = off else {
        return Ok(None);
    };
    let before = commits.get((number as usize).saturating_sub(2));
    match (before, commits.get((number as usize).saturating_sub(1))) {
        (Some(before), Some(commit)) => {
            if commit.revision == before.revision.saturating_add(1)
                && only_deletes(alloc, commit)?
            {
                Ok(Some(number))
            } else {
                Ok(None)
            }
        }
        _ => Ok(None),
    }
}

/// The number of the first commit that seems to have read a key which was put by a revision, or to have deleted one.
fn first_older(
    alloc: Global,
    commits: &[Commit],
    revision: u64,
    audited: &Audited,
) -> Result<Option<u64>, AllocError> {
    for finding in audited.findings.as_slice() {
        let place = (finding.commit as usize).saturating_sub(1);
        match commits.get(place) {
            Some(commit) if has_older(revision, commit) => return Ok(Some(finding.commit)),
            _ => {}
        }
    }
    off_by_deleting(alloc, commits, audited.off)
}

/// The line for people: that a commit seems to have met an older key, and what a trace begins with then, with this at its end.
fn line_of(alloc: Global, number: u64, revision: u64, end: &str) -> Result<String, AllocError> {
    let begin = format!(in alloc; "[\"begin\",{revision},[[KEY,VALUE,MOD],..]]")?;
    format!(in alloc;
        "stmrun: commit {number} seems to have met a key that was there before: the trace of an older store begins with {begin}, the keys at that revision{end}\n"
    )
}

/// The same by the first commit of the trace: where that only deletes, its revision is its own only if it deleted a key.
fn line_by(
    alloc: Global,
    first: &Commit,
    revision: u64,
    number: u64,
) -> Result<String, AllocError> {
    if 1 < revision && only_deletes(alloc, first)? {
        let end = format!(in alloc; ", or with {revision} where commit 1 deleted no key")?;
        return line_of(alloc, number, revision.saturating_sub(1), end.as_str());
    }
    line_of(alloc, number, revision, "")
}

/// What is said of a trace that does not say what it begins with, by its audit.
fn said_of(alloc: Global, commits: &[Commit], audited: &Audited) -> Result<String, AllocError> {
    let Some(first) = commits.first() else {
        return Ok(String::new(alloc));
    };
    let revision = opened(alloc, commits)?;
    match first_older(alloc, commits, revision, audited)? {
        Some(number) => line_by(alloc, first, revision, number),
        None => Ok(String::new(alloc)),
    }
}

/// What to do about the trace that bytes spell, where a commit of it seems to have read or deleted a key from before the trace, and this does not say what it
/// begins with: a line for people. Nothing of other bytes. It fails only when out of memory.
pub fn explain_older(alloc: Global, bytes: &[u8]) -> Result<String, AllocError> {
    let Ok(trace) = read_trace(alloc, bytes) else {
        return Ok(String::new(alloc));
    };
    if trace.opening.is_some() {
        return Ok(String::new(alloc));
    }
    match audit(alloc, &trace)? {
        Some(audited) => said_of(alloc, trace.commits.as_slice(), &audited),
        None => Ok(String::new(alloc)),
    }
}
