//! An audit in words for people.

use crate::anomaly::Anomaly;
use crate::auditing::{audit_each, beginning, known_from, opened};
use crate::commit::Commit;
use crate::finding::Finding;
use crate::reading::read_trace;
use crate::reads::{changed_at, is_lost, is_untrue};
use crate::trace::Trace;
use serde_json::json;
use std::alloc::{AllocError, Global};
use stm_events::{CommittedRead, KeyState, Text};
use stm_explain::{Said, is_hidden, shown};
use stm_json::ReadError;
use stm_keys::Keys;

/// What words about a trace are made of.
#[derive(Clone, Copy)]
struct Audit<'a> {
    /// The commits, of which each that changed something made the revision that it says.
    commits: &'a [Commit],
    /// The keys that their writes made, at every revision.
    keys: &'a Keys,
    /// From which revision on it is known what each key was.
    known: u64,
    /// The revision before the first commit.
    opened: u64,
}

/// A text in quotes; of a long one, its first bytes.
fn quoted(alloc: Global, text: &str) -> Said {
    let value = json!(in alloc; text)?;
    shown(alloc, &value)
}

/// A key as it is, or in quotes, where it has a character that does something to a terminal.
fn named(alloc: Global, key: &str) -> Said {
    if key.chars().any(is_hidden) {
        return quoted(alloc, key);
    }
    String::from_str(alloc, key)
}

/// A value and the revision that put it, or that there is none.
fn state_words(alloc: Global, value: Option<&Text>, mod_rev: u64) -> Said {
    match value {
        Some(value) => {
            let value = quoted(alloc, value.as_str())?;
            format!(in alloc; "{value} @{mod_rev}")
        }
        None if mod_rev == 0 => String::from_str(alloc, "absent"),
        None => format!(in alloc; "absent @{mod_rev}"),
    }
}

/// What a read says of its key.
fn read_words(alloc: Global, read: &CommittedRead) -> Said {
    let key = named(alloc, read.key.as_str())?;
    let state = state_words(alloc, read.value.as_ref(), read.mod_rev)?;
    format!(in alloc; "it read {key} as {state}")
}

/// The commit of a number.
fn commit_of(commits: &[Commit], number: u64) -> Option<&Commit> {
    commits.get((number as usize).wrapping_sub(1))
}

/// The revision of the store before the commit of a number.
fn revision_before(audit: &Audit<'_>, number: u64) -> u64 {
    match commit_of(audit.commits, number.saturating_sub(1)) {
        Some(before) => before.revision,
        None => audit.opened,
    }
}

/// The number of the commit that made a revision.
fn maker_of(commits: &[Commit], revision: u64) -> usize {
    commits.partition_point(|commit| commit.revision < revision) + 1
}

/// What a key was at a revision: nothing, where it was absent, or the revision has not come.
fn state_at<'a>(keys: &'a Keys, key: &str, revision: u64) -> Option<&'a KeyState> {
    if keys.revision() < revision {
        return None;
    }
    keys.look_back(key, revision)
}

/// Which commit changed a key at a revision, and how.
fn change_words(alloc: Global, audit: &Audit<'_>, key: &str, revision: u64) -> Said {
    let maker = maker_of(audit.commits, revision);
    match state_at(audit.keys, key, revision) {
        Some(state) => {
            let value = quoted(alloc, state.value.as_str())?;
            format!(in alloc; "commit {maker} had put {value} @{revision}")
        }
        None => format!(in alloc; "commit {maker} had deleted it @{revision}"),
    }
}

/// What a read says, which its key was not.
fn untrue_words(alloc: Global, audit: &Audit<'_>, number: u64, read: &CommittedRead) -> Said {
    let said = read_words(alloc, read)?;
    let of = read.of_rev;
    if revision_before(audit, number) < of {
        return format!(in alloc; "{said} as of {of}, which had not come");
    }
    let state = state_at(audit.keys, read.key.as_str(), of);
    if of < audit.known && is_lost(of, state) {
        return format!(in alloc; "{said} as of {of}, which no key can be");
    }
    let was = match state {
        Some(state) => state_words(alloc, Some(&state.value), state.mod_rev)?,
        None => state_words(alloc, None, 0)?,
    };
    format!(in alloc; "{said} as of {of}, where it was {was}")
}

/// What a read says, and which commit changed that.
fn stale_words(alloc: Global, audit: &Audit<'_>, read: &CommittedRead) -> Said {
    let said = read_words(alloc, read)?;
    match changed_at(audit.keys, read) {
        Some(revision) => {
            let changed = change_words(alloc, audit, read.key.as_str(), revision)?;
            format!(in alloc; "{said}, and {changed}")
        }
        None => format!(in alloc; "{said}, and it had been changed before the trace"),
    }
}

/// Which key was written though another commit had put it.
fn blind_words(alloc: Global, audit: &Audit<'_>, finding: &Finding) -> Said {
    let key = named(alloc, finding.key.as_str())?;
    let first = finding.seen;
    let changed = change_words(alloc, audit, finding.key.as_str(), finding.held)?;
    format!(in alloc;
        "it writes {key}, which it first could have seen as of {first}, and {changed}"
    )
}

/// Whether a read is the one that a finding is about: of several of the key, one that says what was not so.
fn is_found_by(audit: &Audit<'_>, finding: &Finding, read: &CommittedRead) -> bool {
    read.key == finding.key
        && read.mod_rev == finding.seen
        && (finding.anomaly != Anomaly::DirtyRead
            || revision_before(audit, finding.commit) < read.of_rev
            || is_untrue(audit.keys, audit.known, read))
}

/// What came of a commit.
fn came_words(alloc: Global, audit: &Audit<'_>, commit: &Commit, finding: &Finding) -> Said {
    let mut reads = commit.reads.as_slice().iter();
    match reads.find(|read| is_found_by(audit, finding, read)) {
        Some(read) if finding.anomaly == Anomaly::DirtyRead => {
            untrue_words(alloc, audit, finding.commit, read)
        }
        Some(read) if finding.anomaly != Anomaly::BlindWrite => stale_words(alloc, audit, read),
        _ => blind_words(alloc, audit, finding),
    }
}

/// A finding in words.
fn finding_words(alloc: Global, audit: &Audit<'_>, finding: &Finding) -> Said {
    let number = finding.commit;
    let Some(commit) = commit_of(audit.commits, number) else {
        return Ok(String::new(alloc));
    };
    let came = came_words(alloc, audit, commit, finding)?;
    let verdict = if finding.is_broken {
        "BROKEN"
    } else {
        "which its level allows"
    };
    let revision = commit.revision;
    let level = commit.level;
    let anomaly = finding.anomaly;
    format!(in alloc; "commit {number} (@{revision}, {level:?}): {anomaly}, {verdict}: {came}\n")
}

/// Why a commit cannot be the next one, where the store was at a revision.
fn misfit_words(commit: &Commit, before: u64) -> &'static str {
    if commit.revision < before {
        "commits are out of order"
    } else if commit.revision == before {
        "it changes a key, so commits are out of order, or one stands twice"
    } else if before.saturating_add(1) < commit.revision {
        "commits are missing between these"
    } else if commit.writes.as_slice().is_empty() {
        "it writes nothing, so a commit is missing"
    } else {
        "it deletes only what is absent, so a commit is missing, or the trace does not say what was there before"
    }
}

/// That the revision of a commit of a number is off, in words.
fn off_words(alloc: Global, audit: &Audit<'_>, number: u64) -> Said {
    let Some(commit) = commit_of(audit.commits, number) else {
        return Ok(String::new(alloc));
    };
    let revision = commit.revision;
    let before = revision_before(audit, number);
    let why = misfit_words(commit, before);
    format!(in alloc;
        "commit {number}: its revision is {revision}, where the store was at {before}: {why}; the rest was not looked at\n"
    )
}

/// The last line: how many commits there are, or which one is off.
fn end_words(alloc: Global, audit: &Audit<'_>, off: Option<u64>) -> Said {
    match off {
        Some(number) => off_words(alloc, audit, number),
        None => {
            let count = audit.commits.len();
            format!(in alloc; "commits: {count}\n")
        }
    }
}

/// The revision before the first commit of a trace.
fn revision_at_first(alloc: Global, trace: &Trace) -> Result<u64, AllocError> {
    match &trace.opening {
        Some(opening) => Ok(opening.revision),
        None => opened(alloc, trace.commits.as_slice()),
    }
}

/// The audit of a trace, in words; none of one that no store can have begun with.
fn words_of(alloc: Global, trace: &Trace) -> Result<Option<String>, AllocError> {
    let Some(mut store) = beginning(alloc, trace)? else {
        return Ok(None);
    };
    let commits = trace.commits.as_slice();
    let known = known_from(&trace.opening);
    let audited = audit_each(alloc, &mut store, known, commits)?;
    let audit = Audit {
        commits,
        keys: store.keys(),
        known,
        opened: revision_at_first(alloc, trace)?,
    };
    let mut out = String::new(alloc);
    for finding in audited.findings.as_slice() {
        let words = finding_words(alloc, &audit, finding)?;
        out.push_str(words.as_str())?;
    }
    let end = end_words(alloc, &audit, audited.off)?;
    out.push_str(end.as_str())?;
    Ok(Some(out))
}

/// The audit of the trace that bytes spell, in words: a line for each finding, and one with how many commits there are, or which one is off. None of other
/// bytes, and of a trace that no store can have begun with. It fails only when out of memory.
pub fn audit_in_words(alloc: Global, bytes: &[u8]) -> Result<Option<String>, AllocError> {
    match read_trace(alloc, bytes) {
        Ok(trace) => words_of(alloc, &trace),
        Err(ReadError::OutOfMemory) => Err(AllocError),
        Err(ReadError::Bad(_)) => Ok(None),
    }
}
