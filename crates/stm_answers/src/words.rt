//! The lines of a search in words.

use crate::outcomes::{Noun, outcome_words};
use crate::parts::{at_level, list_at, moves, number_at, text_at};
use crate::rules::{always_words, broken_words, open_words};
use serde_json::Value as Json;
use std::alloc::{AllocError, Global};
use stm_compiling::NamedRunner;
use stm_explain::Said;

/// With this ends the line of an answer at the strongest level.
const STRONGEST: &str = "\"SerializableSnapshot\"]";

/// Whether one of these lines, which a search printed, begins so and is an answer at the strongest level.
fn is_at_strongest(printed: &str, front: &str) -> bool {
    printed.lines().any(|line| line.starts_with(front) && line.ends_with(STRONGEST))
}

/// Why no level is named as enough, by all that the search printed: the strongest one is not, either, or it was not decided there.
fn none_words(printed: &str) -> &'static str {
    if is_at_strongest(printed, "[\"broken\"") {
        "enough: no level (a rule is broken at SerializableSnapshot, too)"
    } else if is_at_strongest(printed, "[\"anomaly\"") {
        "enough: no level (there is an anomaly at SerializableSnapshot, too)"
    } else {
        "enough: not known (SerializableSnapshot was not decided)"
    }
}

/// Which level is enough.
fn enough_words(alloc: Global, parts: &[Json], printed: &str) -> Said {
    match text_at(parts, 1) {
        Some(level) => format!(in alloc; "enough: {level}"),
        None => String::from_str(alloc, none_words(printed)),
    }
}

/// What a search was asked.
#[derive(Clone, Copy)]
pub struct Asked {
    /// Whether it was asked for rules, each of which has a line.
    pub has_rules: bool,
    /// Whether it was at all levels, so that each line ends with one.
    pub has_level: bool,
}

/// That serial orders come to each outcome.
fn serial_words(alloc: Global, parts: &[Json]) -> Said {
    let at = at_level(alloc, parts, 2)?;
    let count = number_at(parts, 1).unwrap_or(0);
    format!(in alloc; "{at}no anomaly: some serial order comes to each outcome (outcomes: {count})")
}

/// That no serial order comes to an outcome.
fn anomaly_words(alloc: Global, parts: &[Json], runners: &[NamedRunner]) -> Said {
    let at = at_level(alloc, parts, 4)?;
    let moves = moves(alloc, number_at(parts, 1).unwrap_or(0))?;
    let (state, ends) = (list_at(parts, 2), list_at(parts, 3));
    let outcome = outcome_words(alloc, Noun::Runner, runners, state, ends)?;
    format!(in alloc; "{at}anomaly after {moves}, to which no serial order comes: {outcome}")
}

/// An outcome.
fn outcome_line(alloc: Global, parts: &[Json], runners: &[NamedRunner]) -> Said {
    let (state, ends) = (list_at(parts, 1), list_at(parts, 2));
    let outcome = outcome_words(alloc, Noun::Runner, runners, state, ends)?;
    format!(in alloc; "outcome: {outcome}")
}

/// How many outcomes there are.
fn count_line(alloc: Global, parts: &[Json]) -> Said {
    let count = number_at(parts, 1).unwrap_or(0);
    format!(in alloc; "outcomes: {count}")
}

/// Words that there are, unless an allocation failed for them.
pub(crate) fn some(words: Said) -> Result<Option<String>, AllocError> {
    match words {
        Ok(words) => Ok(Some(words)),
        Err(error) => Err(error),
    }
}

/// A line about outcomes in words, by the word with which it begins and its elements; none of another line.
fn found_words(
    alloc: Global,
    word: &str,
    parts: &[Json],
    runners: &[NamedRunner],
) -> Result<Option<String>, AllocError> {
    if word == "serial" {
        return some(serial_words(alloc, parts));
    }
    if word == "anomaly" {
        return some(anomaly_words(alloc, parts, runners));
    }
    if word == "outcome" {
        return some(outcome_line(alloc, parts, runners));
    }
    if word == "outcomes" {
        return some(count_line(alloc, parts));
    }
    Ok(None)
}

/// A line in words, by its elements and all that the search printed; none of one that is no answer.
fn words_of(
    alloc: Global,
    parts: &[Json],
    printed: &str,
    asked: Asked,
    runners: &[NamedRunner],
) -> Result<Option<String>, AllocError> {
    let word = text_at(parts, 0).unwrap_or("");
    if word == "always" {
        return some(always_words(alloc, parts, asked.has_level));
    }
    if word == "broken" {
        return some(broken_words(alloc, parts, asked.has_level));
    }
    if word == "open" {
        return some(open_words(alloc, parts, asked));
    }
    if word == "enough" {
        return some(enough_words(alloc, parts, printed));
    }
    found_words(alloc, word, parts, runners)
}

/// A line that a search printed which was asked this, one of the lines of `printed`, in words without a line feed, with the names of these runners. None of
/// a line that is no answer, as a scenario. It fails only when out of memory.
pub fn in_words(
    alloc: Global,
    line: &str,
    printed: &str,
    asked: Asked,
    runners: &[NamedRunner],
) -> Result<Option<String>, AllocError> {
    let Ok(json) = Json::from_str(alloc, line) else {
        return Ok(None);
    };
    match json.as_array() {
        Some(parts) => words_of(alloc, parts.as_slice(), printed, asked, runners),
        None => Ok(None),
    }
}
