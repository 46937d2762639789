//! Outcomes of schedules in words.

use crate::parts::{list_at, list_of, plain, text_at};
use serde_json::Value as Json;
use std::alloc::{AllocError, Global};
use stm_compiling::{NamedRunner, name_of_runner};
use stm_explain::{Said, shown};

/// Adds values, with a comma between each two.
fn push_values(alloc: Global, out: &mut String, values: &[Json]) -> Result<(), AllocError> {
    for (index, value) in values.iter().enumerate() {
        if index > 0 {
            out.push_str(", ")?;
        }
        let value = shown(alloc, value)?;
        out.push_str(value.as_str())?;
    }
    Ok(())
}

/// Adds how a run ended: with the text of its abort, its cause, or its output.
pub(crate) fn push_end(alloc: Global, out: &mut String, end: &[Json]) -> Result<(), AllocError> {
    let word = text_at(end, 0).unwrap_or("ended");
    out.push_str(word)?;
    match (word, end.get(1)) {
        ("committed", _) if list_at(end, 1).is_empty() => Ok(()),
        ("committed", _) => {
            out.push_str(" with ")?;
            push_values(alloc, out, list_at(end, 1))
        }
        ("gaveup", Some(key)) => {
            let key = shown(alloc, key)?;
            out.push_str(" at the key ")?;
            out.push_str(key.as_str())
        }
        ("aborted", Some(text)) => {
            let text = shown(alloc, text)?;
            out.push(' ')?;
            out.push_str(text.as_str())
        }
        (_, Some(cause)) => {
            let cause = plain(alloc, cause)?;
            out.push(' ')?;
            out.push_str(cause.as_str())
        }
        (_, None) => Ok(()),
    }
}

/// What runs are called that have no name.
#[derive(Clone, Copy)]
pub(crate) enum Noun {
    /// Runners, numbered from 1.
    Runner,
    /// Jobs of threads, numbered from 0.
    Job,
}

/// A run without a name, of the start of this number.
fn numbered(alloc: Global, noun: Noun, number: u64) -> Said {
    match noun {
        Noun::Runner => format!(in alloc; "runner {number}"),
        Noun::Job => {
            let job = number.saturating_sub(1);
            format!(in alloc; "job {job}")
        }
    }
}

/// Adds the run of a start: its name, or its number where it has none.
fn push_run(
    alloc: Global,
    out: &mut String,
    noun: Noun,
    runners: &[NamedRunner],
    number: u64,
) -> Result<(), AllocError> {
    match name_of_runner(runners, number) {
        Some(name) => out.push_str(name),
        None => {
            let run = numbered(alloc, noun, number)?;
            out.push_str(run.as_str())
        }
    }
}

/// Adds how each run ended.
fn push_ends(
    alloc: Global,
    out: &mut String,
    noun: Noun,
    runners: &[NamedRunner],
    ends: &[Json],
) -> Result<(), AllocError> {
    let mut number = 0u64;
    for end in ends {
        if number > 0 {
            out.push_str(", ")?;
        }
        number = number.saturating_add(1);
        push_run(alloc, out, noun, runners, number)?;
        out.push(' ')?;
        push_end(alloc, out, list_of(end))?;
    }
    Ok(())
}

/// Adds the keys that are present, with their values.
fn push_state(alloc: Global, out: &mut String, state: &[Json]) -> Result<(), AllocError> {
    for pair in state {
        if let [key, value] = list_of(pair) {
            let key = plain(alloc, key)?;
            let value = shown(alloc, value)?;
            let pair = format!(in alloc; "; {key} = {value}")?;
            out.push_str(pair.as_str())?;
        }
    }
    Ok(())
}

/// How each run ended, and which keys are present then, with their values.
pub(crate) fn outcome_words(
    alloc: Global,
    noun: Noun,
    runners: &[NamedRunner],
    state: &[Json],
    ends: &[Json],
) -> Said {
    let mut out = String::new(alloc);
    push_ends(alloc, &mut out, noun, runners, ends)?;
    push_state(alloc, &mut out, state)?;
    Ok(out)
}
