//! The lines of jobs in words.

use crate::outcomes::{Noun, outcome_words, push_end};
use crate::parts::{list_at, number_at, plain, text_at};
use crate::words::some;
use serde_json::Value as Json;
use std::alloc::{AllocError, Global};
use stm_compiling::{NamedRunner, name_of_runner};
use stm_explain::{Said, shown};

/// How many there are of what a line counts.
fn count_words(alloc: Global, what: &str, parts: &[Json]) -> Said {
    let count = number_at(parts, 1).unwrap_or(0);
    format!(in alloc; "{what}: {count}")
}

/// How many commits failed over a key.
fn conflicts_words(alloc: Global, key: &Json, parts: &[Json]) -> Said {
    let key = plain(alloc, key)?;
    let count = number_at(parts, 2).unwrap_or(0);
    format!(in alloc; "conflicts over {key}: {count}")
}

/// A job by its name and its number, or by its number.
fn job_title(alloc: Global, runners: &[NamedRunner], number: u64) -> Said {
    match name_of_runner(runners, number.saturating_add(1)) {
        Some(name) => format!(in alloc; "{name} (job {number})"),
        None => format!(in alloc; "job {number}"),
    }
}

/// How a job ended, and after how many attempts.
fn job_words(alloc: Global, parts: &[Json], runners: &[NamedRunner]) -> Said {
    let title = job_title(alloc, runners, number_at(parts, 1).unwrap_or(0))?;
    let attempts = number_at(parts, 4).unwrap_or(0);
    if text_at(parts, 2) == Some("committed") {
        let revision = number_at(parts, 3).unwrap_or(0);
        return format!(in alloc;
            "{title}: committed at revision {revision} (attempts: {attempts})"
        );
    }
    let mut end = String::new(alloc);
    push_end(alloc, &mut end, parts.get(2..4).unwrap_or(&[]))?;
    format!(in alloc; "{title}: {end} (attempts: {attempts})")
}

/// A key with its value.
fn value_words(alloc: Global, key: &Json, value: &Json) -> Said {
    let key = plain(alloc, key)?;
    let value = shown(alloc, value)?;
    format!(in alloc; "key {key} = {value}")
}

/// What some of the runs came to.
fn outcome_line(alloc: Global, parts: &[Json], runners: &[NamedRunner]) -> Said {
    let (state, ends) = (list_at(parts, 1), list_at(parts, 2));
    let outcome = outcome_words(alloc, Noun::Job, runners, state, ends)?;
    let times = number_at(parts, 3).unwrap_or(0);
    format!(in alloc; "{times} times: {outcome}")
}

/// A line in words, by its elements; none of one that jobs do not print.
fn words_of(
    alloc: Global,
    parts: &[Json],
    runners: &[NamedRunner],
) -> Result<Option<String>, AllocError> {
    let Some(word) = parts.first() else {
        return Ok(None);
    };
    match (word.as_str().unwrap_or(""), parts) {
        ("jobs", _) => some(count_words(alloc, "jobs", parts)),
        ("committed", _) => some(count_words(alloc, "committed", parts)),
        ("attempts", _) => some(count_words(alloc, "attempts", parts)),
        ("runs", _) => some(count_words(alloc, "runs", parts)),
        ("end", _) => some(count_words(alloc, "revision", parts)),
        ("conflicts", [_, key, _]) => some(conflicts_words(alloc, key, parts)),
        ("job", _) => some(job_words(alloc, parts, runners)),
        ("value", [_, key, value]) => some(value_words(alloc, key, value)),
        ("outcome", _) => some(outcome_line(alloc, parts, runners)),
        _ => Ok(None),
    }
}

/// A line that `threads` printed, in words without a line feed, with the names of these runners. None of another line. It fails only when out of memory.
pub fn job_line_in_words(
    alloc: Global,
    line: &str,
    runners: &[NamedRunner],
) -> Result<Option<String>, AllocError> {
    let Ok(json) = Json::from_str(alloc, line) else {
        return Ok(None);
    };
    match json.as_array() {
        Some(parts) => words_of(alloc, parts.as_slice(), runners),
        None => Ok(None),
    }
}
