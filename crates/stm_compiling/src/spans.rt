//! The lines of a source in which its events and its rules begin, and those in which events stand: that a search takes as set-up, that are the others', and
//! that are no jobs.

use crate::fault::position_in;
use crate::items::{Item, ItemKind, items_of, last_start, names_of};
use crate::spots::{behind, is_one_of, spelled_at};
use crate::wanted::EVENTS;
use std::alloc::{AllocError, Global};
use stm_explain::Said;
use stm_tokens::{Position, tokens_of};

/// At most so many events are named that are no jobs.
const MOST_NAMED: usize = 10;

/// The words of the events that have a place among jobs.
const OF_JOBS: [&str; 7] = [
    "begin", "start", "txn", "grant", "keep", "revoke", "advance",
];

/// The byte at which the last token of an item begins.
fn last_byte(item: Item<'_>) -> usize {
    match item.tokens.last() {
        Some(token) => token.at,
        None => item.at,
    }
}

/// Whether an item is an event of the others, where the last start begins at a byte, if there is one; nothing where it is no event.
fn is_of_others(item: Item<'_>, start: Option<usize>) -> Option<bool> {
    match item.kind {
        ItemKind::Part | ItemKind::Step => None,
        ItemKind::Start => Some(false),
        ItemKind::Event => match start {
            Some(start) => Some(item.at > start),
            None => Some(true),
        },
    }
}

/// The lines, in a source of this name, of the events that are those of the others or not, of which the last start begins at a byte.
fn lines_of(alloc: Global, name: &str, source: &str, items: &[Item<'_>], of_others: bool) -> Said {
    let start = last_start(items);
    let mut first = None;
    let mut last = 0;
    for item in items {
        if is_of_others(*item, start) == Some(of_others) {
            first = first.or(Some(item.at));
            last = last_byte(*item);
        }
    }
    let Some(first) = first else {
        return String::from_str(alloc, "none");
    };
    let from = position_in(source.as_bytes(), first).line;
    let to = position_in(source.as_bytes(), last).line;
    if from == to {
        return format!(in alloc; "{name}:{from}");
    }
    format!(in alloc; "{name}:{from}-{to}")
}

/// Which lines of a source of this name have the events that a search takes as set-up, and which have those of the others, in words. It fails only when out of
/// memory.
pub fn event_lines(alloc: Global, name: &str, source: &str) -> Said {
    let tokens = tokens_of(alloc, source.as_bytes())?;
    let items = items_of(alloc, tokens.as_slice())?;
    let setup = lines_of(alloc, name, source, items.as_slice(), false)?;
    let others = lines_of(alloc, name, source, items.as_slice(), true)?;
    format!(in alloc;
        "set-up, up to the last start: {setup}; events of the others, each at any moment, in their order: {others}"
    )
}

/// The word of an event that has no place among jobs, with which an item begins; an empty one for other items.
fn word_of_no_job(item: Item<'_>) -> &str {
    let word = spelled_at(item.tokens, 0);
    match item.kind {
        ItemKind::Step | ItemKind::Event if !is_one_of(word, &OF_JOBS) => word,
        _ => "",
    }
}

/// That the event with which an item begins has no place among jobs, and where it stands: nothing of other items.
fn no_job_words(alloc: Global, name: &str, source: &str, item: Item<'_>) -> Said {
    let word = word_of_no_job(item);
    if word.is_empty() {
        return Ok(String::new(alloc));
    }
    let Position { line, column } = position_in(source.as_bytes(), item.at);
    format!(in alloc;
        "{name}:{line}:{column}: \"{word}\" has no place in a scenario of jobs, which has starts and what changes the store\n"
    )
}

/// Which events of a source of this name have no place among jobs, and where they stand: a line for each of the first ones. It fails only when out of memory.
pub fn events_without_jobs(alloc: Global, name: &str, source: &str) -> Said {
    let tokens = tokens_of(alloc, source.as_bytes())?;
    let items = items_of(alloc, tokens.as_slice())?;
    let mut said = String::new(alloc);
    let mut left = MOST_NAMED;
    for item in items.as_slice() {
        if left > 0 {
            let event = no_job_words(alloc, name, source, *item)?;
            if !event.is_empty() {
                said.push_str(event.as_str())?;
                left -= 1;
            }
        }
    }
    Ok(said)
}

/// How many events that are no steps an item has: a start one for each of its names.
fn count_of(alloc: Global, item: Item<'_>) -> Result<u64, AllocError> {
    match item.kind {
        ItemKind::Part | ItemKind::Step => Ok(0),
        ItemKind::Event if spelled_at(item.tokens, 0) == "begin" => Ok(0),
        ItemKind::Event => Ok(1),
        ItemKind::Start => {
            let names = names_of(alloc, behind(item.tokens, 1))?;
            let count = names.len() as u64;
            Ok(count.max(1))
        }
    }
}

/// The line in which the event with a number begins in a source that spells a scenario. The events that are no steps are counted, from 1. It fails only
/// when out of memory.
pub fn line_of_event(
    alloc: Global,
    source: &str,
    number: u64,
) -> Result<Option<usize>, AllocError> {
    let tokens = tokens_of(alloc, source.as_bytes())?;
    let items = items_of(alloc, tokens.as_slice())?;
    let mut left = number;
    for item in items.as_slice() {
        let count = count_of(alloc, *item)?;
        if left <= count {
            return Ok(Some(position_in(source.as_bytes(), item.at).line));
        }
        left = left.saturating_sub(count);
    }
    Ok(None)
}

/// The line in which the rule or the final of a name begins in a source. It fails only when out of memory.
pub fn line_of_rule(alloc: Global, source: &str, name: &str) -> Result<Option<usize>, AllocError> {
    let tokens = tokens_of(alloc, source.as_bytes())?;
    let items = items_of(alloc, tokens.as_slice())?;
    let rule = items.as_slice().iter().find(|item| {
        matches!(spelled_at(item.tokens, 0), "rule" | "finally")
            && spelled_at(item.tokens, 1) == name
    });
    match rule {
        Some(item) => Ok(Some(position_in(source.as_bytes(), item.at).line)),
        None => Ok(None),
    }
}
